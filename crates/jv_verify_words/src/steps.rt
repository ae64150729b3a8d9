ghost use Rattle.std.specs.Prelude.{◌≡◌, IfOk, Err};
ghost use Rattle.jv_types.specs.declared.frames.Frame.{Frame};
ghost use Rattle.jv_typing.specs.Typing.{IsWordTyping};
ghost use Rattle.jv_typing.specs.declared.no_typing.NoTyping.TheVariants as none;

use crate::insns::word_cells;
use crate::locals::{locals_after, reads_hold};
use crate::pushes::stack_after;
use jv_types::{Frame, Insn};
use jv_typing::{NoTyping, below_cells};
use std::alloc::Global;

/// The frame after an instruction that works on words, as the verifier has it (JVMS 4.10.1.9). It is
/// `NoTyping::Rule` exactly where the instruction has no typing on the frame: where the cells that it takes
/// don't stand on the stack, where a local variable that it reads holds another type, where it stores behind
/// the last local variable (a long or double takes two), where the stack that it leaves has more than `max_stack` words, and where it is
/// no instruction that works on words.
pub fn word_step(
    alloc: Global,
    frame: &Frame,
    insn: &Insn,
    max_stack: u16,
) -> Result<Frame, NoTyping>
    ensures typed { IfOk result (λ after. IsWordTyping max_stack frame.now insn.now after) }
    ensures rule { result ≡ Err none.Rule → (after : Frame) → IsWordTyping max_stack frame.now insn.now after → ⊥ }
{
    let Some(cells) = word_cells(insn) else {
        return Err(NoTyping::Rule);
    };
    let stack = frame.stack.as_slice();
    let Some(below) = below_cells(cells.takes, stack) else {
        return Err(NoTyping::Rule);
    };
    let locals = frame.locals.as_slice();
    if !reads_hold(locals, insn, cells.gives) {
        return Err(NoTyping::Rule);
    }
    let (_, taken) = stack.split_at(below.len());
    Ok(Frame {
        stack: stack_after(alloc, below, cells.gives, max_stack)?,
        locals: locals_after(alloc, locals, insn, taken)?,
        this_uninit: frame.this_uninit,
    })
}
