//! Laws of the typing of instructions. Each function does nothing, and its contract is the law.

ghost use Rattle.std.specs.Prelude.{◌≡◌, ℕ, false, ◌&&◌, List, Some, length};
ghost use Rattle.std.specs.List.{list_any};
ghost use Rattle.jv_insn.specs.Effects.{Shuffle, shuffle_of};
ghost use Rattle.jv_types.specs.declared.frames.VType.{VType};
ghost use Rattle.jv_types.specs.declared.instruction.Insn.{Insn};
ghost use Rattle.jv_types.specs.declared.frames.Frame.{Frame};
ghost use Rattle.jv_types.specs.Bodies.{at_offset};
ghost use Rattle.jv_types.specs.declared.ids.MethodId.{MethodId};
ghost use Rattle.jv_types.specs.declared.shapes.Shape.{Shape};
ghost use Rattle.jv_types.specs.declared.body.Body.{Body};
ghost use Rattle.jv_typing.specs.TypeSafe.{IsForced};
ghost use Rattle.jv_typing.specs.Typing.{IsWordTyping, IsMoveTyping, are_whole, in_order, Size, has_sizes, forms_of};

/// A frame and an instruction that works on words, or moves words, lead to at most one frame (JVMS
/// 4.10.1.9).
pub fn typing_is_a_function()
    ensures words { (max_stack : ℕ) (frame : Frame) (insn : Insn) (a b : Frame) → IsWordTyping max_stack frame insn a → IsWordTyping max_stack frame insn b → a ≡ b }
    ensures moves { (max_stack : ℕ) (frame : Frame) (insn : Insn) (a b : Frame) → IsMoveTyping max_stack frame insn a → IsMoveTyping max_stack frame insn b → a ≡ b }
{}

/// Where a map stands its frame is forced.
pub fn maps_are_forced()
    ensures { (w : List Shape) (method : MethodId) (body : Body) (maps : List (ℕ × Frame)) (pc : ℕ) (frame : Frame) → at_offset pc maps ≡ Some frame → IsForced w method body maps pc frame }
{}

/// What an instruction moves, and what is left of it, are whole values exactly where the words have one of
/// its forms (JVMS 4.10.1.9, pop to swap).
pub fn moves_have_their_forms()
    ensures { (op : ℕ) (shuffle : Shuffle) (forms : List (List Size)) (words : List VType) → shuffle_of op ≡ Some shuffle → forms_of op ≡ Some forms → length words ≡ shuffle.count
        → (are_whole false words && are_whole false (in_order shuffle.order words)) ≡ list_any (λ form. has_sizes form words) forms }
{}
