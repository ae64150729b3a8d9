ghost use Rattle.std.specs.Prelude.{◌≡◌, ◌≤◌, length, IfOk};
ghost use Rattle.calls_form.specs.Reading.{Gives};
ghost use Rattle.calls_form.specs.ClassesWalk.{kind_is, kinds_are, ends_in, exchange_of, exchange_at, holds, locals_at, frame_of, go_at};

use crate::object_class::{Instruction, Kind, ObjectClass};
use crate::read_error::ReadError;
use crate::walk_effects::{Exchange, effect_at};

/// What is known of a method's words before one of its instructions: the kind of each local, none where
/// it is unset, and those of the words on the stack from its bottom.
#[derive(Drop)]
pub struct WordKinds {
    pub locals: Vec<Option<Kind>>,
    pub stack: Vec<Kind>,
}

/// Whether two kinds are one.
pub fn kind_is(one: Kind, other: Kind) -> bool
    ensures { result ≡ kind_is one other }
{
    match (one, other) {
        (Kind::Word, Kind::Word) | (Kind::Reference, Kind::Reference) => true,
        (Kind::Word, Kind::Reference) | (Kind::Reference, Kind::Word) => false,
    }
}

/// Whether two lists of kinds are one.
#[tactic(auto, unfolding(crate::specs::ClassesWalk::kinds_are))]
fn kinds_are(some: &[Kind], others: &[Kind]) -> bool
    ensures { result ≡ kinds_are some.now others.now }
{
    let mut ones = some;
    let mut twos = others;
    loop {
        match (ones.split_first(), twos.split_first()) {
            (None, None) => return true,
            (Some((one, rest)), Some((two, rest_of_others))) => {
                if !kind_is(*one, *two) {
                    return false;
                }
                ones = rest;
                twos = rest_of_others;
            }
            _ => return false,
        }
    }
}

/// Whether the words on a stack end with words of these kinds.
pub fn ends_in(stack: &[Kind], words: &[Kind]) -> bool
    ensures { result ≡ ends_in stack.now words.now }
{
    words.len() <= stack.len() && kinds_are(stack.split_at(stack.len() - words.len()).1, words)
}

/// The stack after an exchange of words on its top.
#[tactic(auto, unfolding(crate::specs::ClassesWalk::exchange_at))]
fn exchange_words(stack: Vec<Kind>, exchange: Exchange) -> Result<Vec<Kind>, ReadError>
    ensures { Gives (λ v. v.items) result (exchange_at (exchange_of exchange.entry) stack.items) }
{
    let mut stack = stack;
    if !ends_in(stack.as_slice(), exchange.takes) {
        return Err(ReadError::Malformed);
    }
    stack.truncate(stack.len() - exchange.takes.len());
    stack.extend_from_slice(exchange.gives)?;
    Ok(stack)
}

/// Whether a local holds a word of this kind.
fn holds(kind: Kind, local: Option<Kind>) -> bool
    ensures { result ≡ holds kind local }
{
    match local {
        None => false,
        Some(found) => kind_is(found, kind),
    }
}

/// The locals after an instruction: a load finds its kind, and a store leaves its kind.
#[tactic(auto, unfolding(crate::specs::ClassesWalk::locals_at))]
fn locals_after(
    locals: Vec<Option<Kind>>,
    instruction: Instruction,
) -> Result<Vec<Option<Kind>>, ReadError>
    ensures { Gives (λ v. v.items) result (locals_at instruction locals.items) }
{
    let mut locals = locals;
    match instruction {
        Instruction::Load { kind, local } => match locals.as_slice().get(usize::from(local)) {
            Some(found) if holds(kind, *found) => Ok(locals),
            _ => Err(ReadError::Malformed),
        },
        Instruction::Store { kind, local } => {
            let local = usize::from(local);
            if local >= locals.len() {
                return Err(ReadError::Malformed);
            }
            locals[local] = Some(kind);
            Ok(locals)
        }
        _ => Ok(locals),
    }
}

/// What is known behind an instruction that isn't a return (JVMS 4.10), on a stack of at most so many
/// words.
#[tactic(auto, unfolding(crate::specs::ClassesWalk::go_at))]
pub fn go(
    class: &ObjectClass,
    instruction: Instruction,
    kinds: WordKinds,
    most: u16,
) -> Result<WordKinds, ReadError>
    ensures gives { Gives frame_of result (go_at class.now most instruction (frame_of kinds)) }
    ensures within { IfOk result (λ k. length k.stack.items ≤ most) }
{
    let WordKinds { locals, stack } = kinds;
    let top = stack.as_slice().last().copied();
    let Some(exchange) = effect_at(class, top, instruction) else {
        return Err(ReadError::Malformed);
    };
    let stack = exchange_words(stack, exchange)?;
    let locals = locals_after(locals, instruction)?;
    if stack.len() > usize::from(most) {
        return Err(ReadError::Malformed);
    }
    Ok(WordKinds { locals, stack })
}
