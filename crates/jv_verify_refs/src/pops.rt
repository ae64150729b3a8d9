ghost use Rattle.std.specs.Prelude.{◌≡◌, IfOk, Err};
ghost use Rattle.jv_insn.specs.Effects.{effect_of};
ghost use Rattle.jv_types.specs.declared.frames.Frame.{Frame as FrameValue};
ghost use Rattle.jv_typing.specs.Transitions.{CanPop};
ghost use Rattle.jv_typing.specs.References.{Goes};
ghost use Rattle.jv_typing.specs.declared.no_typing.NoTyping.TheVariants as none;
ghost use Rattle.jv_verify_refs.specs.Steps.Parts.{Pops, site_of};

use crate::cells::cells_taken;
use crate::frames::with_stack;
use crate::step::Step;
use jv_frames::{are_assignable, in_words};
use jv_types::{Frame, VType};
use jv_typing::{NoTyping, below_cells};
use std::alloc::Global;

/// The words below the values that an instruction takes from a stack, where these are assignable to the types
/// that are wanted (JVMS 4.10.1.4, canPop).
pub fn popped<'a>(
    alloc: Global,
    step: &Step,
    wanted: &[VType],
    stack: &'a [VType],
) -> Result<&'a [VType], NoTyping>
    ensures typed { IfOk result (λ below. Pops step.now.world.now (effect_of step.now.insn.now).takes wanted.now stack.now below.now) }
    ensures rule { result ≡ Err none.Rule → CanPop step.now.world.now (effect_of step.now.insn.now).takes wanted.now stack.now → ⊥ }
{
    let cells = cells_taken(alloc, step.insn)?;
    let words = in_words(alloc, wanted)?;
    let Some(below) = below_cells(cells.as_slice(), stack) else {
        return Err(NoTyping::Rule);
    };
    let (_, top) = stack.split_at(below.len());
    if are_assignable(step.world, top, words.as_slice()) {
        Ok(below)
    } else {
        Err(NoTyping::Rule)
    }
}

/// The frame after an instruction that pops values of these types and pushes values of the others (JVMS
/// 4.10.1.4, validTypeTransition).
pub fn goes(
    alloc: Global,
    step: &Step,
    wanted: &[VType],
    given: &[VType],
) -> Result<Frame, NoTyping>
    ensures typed { IfOk result (Goes step.now.world.now (site_of step.now) step.now.frame.now step.now.insn.now wanted.now given.now) }
    ensures rule { result ≡ Err none.Rule → (after : FrameValue) → Goes step.now.world.now (site_of step.now) step.now.frame.now step.now.insn.now wanted.now given.now after → ⊥ }
{
    let words = in_words(alloc, given)?;
    match popped(alloc, step, wanted, step.frame.stack.as_slice()) {
        Ok(below) => with_stack(
            alloc,
            step.frame,
            below,
            words.as_slice(),
            step.body.max_stack,
        ),
        Err(e) => Err(e),
    }
}
