ghost use Rattle.std.specs.Prelude.{◌≡◌, ◌↔◌, ℕ, List, IsTrue, IfOk, Err, Contains};
ghost use Rattle.jv_types.specs.declared.instruction.Arg.TheVariants as args;
ghost use Rattle.jv_types.specs.declared.desc.RefType as refs;
ghost use Rattle.jv_typing.specs.Transitions.{AreReplaced, IsReplaced};
ghost use Rattle.jv_typing.specs.declared.no_typing.NoTyping.TheVariants as none;
ghost use Rattle.jv_typing.specs.declared.rules.RefRule.TheVariants as rules;
ghost use Rattle.jv_verify_refs.specs.Steps.Parts.{HasTyping, HasNoTyping};

use crate::step::Step;
use jv_types::{Arg, Frame, RefType, Seq, VType};
use jv_typing::{NoTyping, stack_with};
use std::alloc::{AllocError, Global};

/// A type, or another one in place of it.
fn replaced_one(alloc: Global, old: &VType, new: &VType, word: &VType) -> Result<VType, AllocError>
    ensures { IfOk result (IsReplaced old.now new.now word.now) }
{
    if word.is(old) {
        new.copy(alloc)
    } else {
        word.copy(alloc)
    }
}

/// Words, with another type in place of one of them (JVMS 4.10.1.9, substitute). Only memory can be wanting.
pub fn replaced(
    alloc: Global,
    old: &VType,
    new: &VType,
    words: &[VType],
) -> Result<Seq<VType>, AllocError>
    ensures { IfOk result (AreReplaced old.now new.now words.now) }
{
    let mut made = Vec::new(alloc);
    for word in words {
        made.push(replaced_one(alloc, old, new, word)?)?;
    }
    Ok(Seq::from_vec(made))
}

/// Whether a word is among others.
fn has_word(words: &[VType], word: &VType) -> bool
    ensures { IsTrue result ↔ Contains words.now word.now }
{
    for other in words {
        if other.is(word) {
            return true;
        }
    }
    false
}

/// Whether the operands name a class or interface.
fn names_class(arg: &Arg) -> bool
    ensures { IsTrue result ↔ ((name : List ℕ) × (arg.now ≡ args.Class (refs.Class name))) }
{
    match arg {
        Arg::Class(RefType::Class(_)) => true,
        _ => false,
    }
}

/// new: no object of it that isn't initialised is on the stack, and none stays in the local variables.
pub fn make(alloc: Global, step: &Step) -> Result<Frame, NoTyping>
    ensures typed { IfOk result (HasTyping step.now rules.New) }
    ensures rule { result ≡ Err none.Rule → HasNoTyping step.now rules.New }
{
    if !names_class(&step.insn.arg) {
        return Err(NoTyping::Rule);
    }
    let stack = step.frame.stack.as_slice();
    let made = VType::Uninit(step.pc);
    if has_word(stack, &made) {
        return Err(NoTyping::Rule);
    }
    let locals = replaced(alloc, &made, &VType::Top, step.frame.locals.as_slice())?;
    let given = [made];
    match stack_with(alloc, stack, &given, step.body.max_stack) {
        Err(e) => Err(e),
        Ok(stack) => Ok(Frame {
            locals,
            stack,
            this_uninit: step.frame.this_uninit,
        }),
    }
}
