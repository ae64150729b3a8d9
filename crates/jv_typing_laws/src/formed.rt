//! What the frames of a method have in common.

ghost use Rattle.std.specs.Prelude.{◌≡◌, ℕ, List, Some};
ghost use Rattle.jv_types.specs.Bodies.{at_offset};
ghost use Rattle.jv_types.specs.declared.ids.MethodId.{MethodId};
ghost use Rattle.jv_types.specs.declared.shapes.Shape.{Shape};
ghost use Rattle.jv_types.specs.declared.instruction.Insn.{Insn};
ghost use Rattle.jv_types.specs.declared.body.Body.{Body};
ghost use Rattle.jv_types.specs.declared.frames.Frame.{Frame};
ghost use Rattle.jv_types.specs.declared.frames.FramedBody.{FramedBody};
ghost use Rattle.jv_insn.specs.Forms.{HasOwnOperands};
ghost use Rattle.jv_frames.specs.Entry.{IsInitialFrame};
ghost use Rattle.jv_typing.specs.References.{Site};
ghost use Rattle.jv_typing.specs.Steps.{StepTyping};
ghost use Rattle.jv_typing.specs.TypeSafe.{AreMapsOf, TypeSafe};
ghost use Rattle.jv_typing_laws.specs.Formed.{IsFormed};

/// In the frame as a method begins, in the frames of its map, and in those of a table that types it, Top stands
/// behind each long and double, and arrays hold references.
pub fn frames_are_formed()
    ensures initial { (w : List Shape) (id : MethodId) (max_locals : ℕ) (frame : Frame) → IsInitialFrame w id max_locals frame → IsFormed frame }
    ensures maps { (w : List Shape) (method : MethodId) (body : Body) (maps : List (ℕ × Frame)) (pc : ℕ) (frame : Frame) → AreMapsOf w method body maps → at_offset pc maps ≡ Some frame → IsFormed frame }
    ensures table { (w : List Shape) (framed : FramedBody) (pc : ℕ) (frame : Frame) → TypeSafe w framed → at_offset pc framed.frames ≡ Some frame → IsFormed frame }
{}

/// An instruction leaves such a frame where it finds one.
pub fn steps_keep_form()
    ensures { (w : List Shape) (site : Site) (frame : Frame) (insn : Insn) (after : Frame) → HasOwnOperands insn → IsFormed frame → StepTyping w site frame insn after → IsFormed after }
{}
