//! What the definitions determine: the frame after an instruction, and the one as a method begins.

ghost use Rattle.std.specs.Prelude.{◌≡◌, ℕ, List};
ghost use Rattle.jv_types.specs.declared.ids.MethodId.{MethodId};
ghost use Rattle.jv_types.specs.declared.shapes.Shape.{Shape};
ghost use Rattle.jv_types.specs.declared.instruction.Insn.{Insn};
ghost use Rattle.jv_types.specs.declared.frames.Frame.{Frame};
ghost use Rattle.jv_frames.specs.Entry.{IsInitialFrame};
ghost use Rattle.jv_typing.specs.References.{Site};
ghost use Rattle.jv_typing.specs.Steps.{StepTyping};

/// A frame and an instruction lead to at most one frame (JVMS 4.10.1.9).
pub fn typing_has_one_frame()
    ensures { (w : List Shape) (site : Site) (frame : Frame) (insn : Insn) (a b : Frame) → StepTyping w site frame insn a → StepTyping w site frame insn b → a ≡ b }
{}

/// A method begins with at most one frame (JVMS 4.10.1.6).
pub fn initial_frame_is_one()
    ensures { (w : List Shape) (id : MethodId) (max_locals : ℕ) (a b : Frame) → IsInitialFrame w id max_locals a → IsInitialFrame w id max_locals b → a ≡ b }
{}
