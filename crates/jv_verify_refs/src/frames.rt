ghost use Rattle.std.specs.Prelude.{◌≡◌, ◌++◌, IfOk, Err};
ghost use Rattle.jv_types.specs.declared.frames.Frame.{Frame as FrameValue};
ghost use Rattle.jv_typing.specs.declared.no_typing.NoTyping.TheVariants as none;
ghost use Rattle.jv_verify_refs.specs.Steps.Parts.{IsWithStack};

use jv_types::{Frame, VType};
use jv_typing::{NoTyping, copied, stack_with};
use std::alloc::Global;

/// The frame with these words and others on top of them for its stack, where that has at most so many words.
pub fn with_stack(
    alloc: Global,
    frame: &Frame,
    below: &[VType],
    given: &[VType],
    max_stack: u16,
) -> Result<Frame, NoTyping>
    ensures typed { IfOk result (IsWithStack max_stack (below.now ++ given.now) frame.now) }
    ensures rule { result ≡ Err none.Rule → (after : FrameValue) → IsWithStack max_stack (below.now ++ given.now) frame.now after → ⊥ }
{
    let locals = copied(alloc, frame.locals.as_slice())?;
    match stack_with(alloc, below, given, max_stack) {
        Ok(stack) => Ok(Frame {
            locals,
            stack,
            this_uninit: frame.this_uninit,
        }),
        Err(e) => Err(e),
    }
}
