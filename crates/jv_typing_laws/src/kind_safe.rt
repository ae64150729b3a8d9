//! A method that has a table of frames is kind safe.

ghost use Rattle.std.specs.Prelude.{List};
ghost use Rattle.jv_types.specs.declared.shapes.Shape.{Shape};
ghost use Rattle.jv_types.specs.declared.instruction.Insn.{Insn};
ghost use Rattle.jv_types.specs.declared.frames.Frame.{Frame};
ghost use Rattle.jv_types.specs.declared.frames.FramedBody.{FramedBody};
ghost use Rattle.jv_insn.specs.Forms.{HasOwnOperands};
ghost use Rattle.jv_insn.specs.Kinds.{kinds_of, kinds_left, SaysNoMore};
ghost use Rattle.jv_insn.specs.KindSafe.{IsKindSafe};
ghost use Rattle.jv_frames.specs.Assignable.{IsFrameAssignable};
ghost use Rattle.jv_typing.specs.References.{Site};
ghost use Rattle.jv_typing.specs.Steps.{StepTyping};
ghost use Rattle.jv_typing.specs.TypeSafe.{TypeSafe};
ghost use Rattle.jv_typing_laws.specs.Formed.{IsFormed};

/// A frame says no more of words and references than one that is assignable to it, where this is formed.
pub fn assignable_frames_say_no_more()
    ensures { (w : List Shape) (frame there : Frame) → IsFormed frame → IsFrameAssignable w frame there → SaysNoMore (kinds_of there) (kinds_of frame) }
{}

/// The frame after an instruction says no more of words and references than the instruction leaves.
pub fn typed_steps_leave_kinds()
    ensures { (w : List Shape) (site : Site) (frame : Frame) (insn : Insn) (after : Frame) → HasOwnOperands insn → IsFormed frame → StepTyping w site frame insn after
        → SaysNoMore (kinds_of after) (kinds_left insn (kinds_of frame)) }
{}

/// A method with a table that types it is kind safe. It needs no condition on what its references resolve to,
/// since the cells of a call and of a field go by the reference's own descriptor.
pub fn type_safe_is_kind_safe()
    ensures { (w : List Shape) (framed : FramedBody) → TypeSafe w framed → IsKindSafe w framed }
{}
