ghost use Rattle.std.specs.Prelude.{◌≡◌, IfOk, Err};
ghost use Rattle.jv_insn.specs.Effects.{effect_of};
ghost use Rattle.jv_types.specs.declared.frames.VType.{Top};
ghost use Rattle.std.specs.Prelude.{◌∷◌, []};
ghost use Rattle.jv_typing.specs.declared.no_typing.NoTyping.TheVariants as none;
ghost use Rattle.jv_typing.specs.declared.rules.RefRule.TheVariants as rules;
ghost use Rattle.jv_verify_refs.specs.Steps.Parts.{HasTyping, HasNoTyping, Pops};

use crate::frames::with_stack;
use crate::pops::popped;
use crate::step::Step;
use jv_insn::local_of;
use jv_types::{Frame, VType};
use jv_typing::{NoTyping, is_reference, stack_with, stored};
use std::alloc::Global;

/// aload: a local variable that holds a reference, initialised or not.
pub fn load(alloc: Global, step: &Step) -> Result<Frame, NoTyping>
    ensures typed { IfOk result (HasTyping step.now rules.Load) }
    ensures rule { result ≡ Err none.Rule → HasNoTyping step.now rules.Load }
{
    let local = local_of(step.insn.op, &step.insn.arg);
    let Some(held) = step.frame.locals.as_slice().get(usize::from(local)) else {
        return Err(NoTyping::Rule);
    };
    if !is_reference(held) {
        return Err(NoTyping::Rule);
    }
    let given = [held.copy(alloc)?];
    let stack = step.frame.stack.as_slice();
    with_stack(alloc, step.frame, stack, &given, step.body.max_stack)
}

/// astore, where these words stand below what it takes.
fn store_above(alloc: Global, step: &Step, below: &[VType]) -> Result<Frame, NoTyping>
    requires { Pops step.now.world.now (effect_of step.now.insn.now).takes (Top ∷ []) step.now.frame.now.stack below.now }
    ensures typed { IfOk result (HasTyping step.now rules.Store) }
    ensures rule { result ≡ Err none.Rule → HasNoTyping step.now rules.Store }
{
    let local = local_of(step.insn.op, &step.insn.arg);
    let (_, top) = step.frame.stack.as_slice().split_at(below.len());
    match stored(alloc, step.frame.locals.as_slice(), local, top) {
        Err(e) => Err(e),
        Ok(locals) => match stack_with(alloc, below, &[], step.body.max_stack) {
            Err(e) => Err(e),
            Ok(stack) => Ok(Frame {
                locals,
                stack,
                this_uninit: step.frame.this_uninit,
            }),
        },
    }
}

/// astore: the reference at the top of the stack, initialised or not.
pub fn store(alloc: Global, step: &Step) -> Result<Frame, NoTyping>
    ensures typed { IfOk result (HasTyping step.now rules.Store) }
    ensures rule { result ≡ Err none.Rule → HasNoTyping step.now rules.Store }
{
    let wanted = [VType::Top];
    match popped(alloc, step, &wanted, step.frame.stack.as_slice()) {
        Ok(below) => store_above(alloc, step, below),
        Err(e) => Err(e),
    }
}
