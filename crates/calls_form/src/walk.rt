ghost use Rattle.std.specs.Prelude.{◌≡◌, ◌≤◌, List, [], Err, length, map, replicate, IfOk};
ghost use Rattle.calls_form.specs.Reading.{Gives};
ghost use Rattle.calls_form.specs.Kinds.{start, IsWalk};
ghost use Rattle.calls_form.specs.Kinds as kinds;
ghost use Rattle.calls_form.specs.ClassesWalk.{option_kind_is, returns_kind, is_end, frame_of, depths_from, depths_at};

use crate::object_class::{Instruction, Kind, Method, ObjectClass, Placed};
use crate::read_error::ReadError;
use crate::walk_effects::result_words;
use crate::walk_steps::{WordKinds, ends_in, go, kind_is};
use std::alloc::{AllocError, Global};

/// The words of a method's arguments, as locals.
fn argument_locals(alloc: Global, arguments: &[Kind]) -> Result<Vec<Option<Kind>>, AllocError>
    ensures { IfOk result (λ v. v.items ≡ map (λ kind. Some kind) arguments.now) }
{
    arguments.iter().map(|kind| Some(*kind)).collect(alloc)
}

/// What is known as a method is entered: its arguments are its first locals, the others are unset, and
/// the stack is empty (JVMS 2.6).
fn start_of(alloc: Global, method: &Method) -> Result<WordKinds, AllocError>
    requires { length method.now.arguments ≤ method.now.max_locals }
    ensures { IfOk result (λ k. frame_of k ≡ start method.now) }
{
    let mut locals = argument_locals(alloc, method.arguments.as_slice())?;
    locals.resize(usize::from(method.max_locals), None)?;
    Ok(WordKinds {
        locals,
        stack: Vec::new(alloc),
    })
}

/// Whether two kinds of results are one.
fn option_kind_is(one: Option<Kind>, other: Option<Kind>) -> bool
    ensures { result ≡ option_kind_is one other }
{
    match (one, other) {
        (None, None) => true,
        (Some(kind), Some(kind_of_other)) => kind_is(kind, kind_of_other),
        _ => false,
    }
}

/// Whether an instruction is the return of a result of this kind, or of none.
fn returns_kind(instruction: Instruction, kind: Option<Kind>) -> bool
    ensures { result ≡ returns_kind instruction kind }
{
    match instruction {
        Instruction::Return(returned) => option_kind_is(returned, kind),
        _ => false,
    }
}

/// Whether an instruction is the return of a result of this kind, which is on top of the stack.
fn is_end(instruction: Instruction, kind: Option<Kind>, stack: &[Kind]) -> bool
    ensures { result ≡ is_end instruction kind stack.now }
{
    returns_kind(instruction, kind) && ends_in(stack, result_words(kind))
}

/// The depths of the stack before each instruction, the first of which finds these words.
fn read_depths(
    alloc: Global,
    class: &ObjectClass,
    method: &Method,
    first: WordKinds,
) -> Result<Vec<u16>, ReadError>
    requires { length first.stack.items ≤ method.now.max_stack }
    ensures { Gives (λ v. v.items) result (depths_from class.now method.now (frame_of first) method.now.code) }
{
    let Some((last, before)) = method.code.as_slice().split_last() else {
        return Err(ReadError::Malformed);
    };
    let most = method.max_stack;
    let mut kinds = first;
    let mut depths = Vec::with_capacity(alloc, method.code.len())?;
    for placed in before {
        depths.push(kinds.stack.len() as u16)?;
        kinds = go(class, placed.instruction, kinds, most)?;
    }
    if !is_end(last.instruction, method.result, kinds.stack.as_slice()) {
        return Err(ReadError::Malformed);
    }
    depths.push(kinds.stack.len() as u16)?;
    Ok(depths)
}

/// The depth of the stack before each instruction of a method, where it has a walk of kinds.
#[tactic(auto, unfolding(crate::specs::ClassesWalk::depths_at))]
fn read_walk(alloc: Global, class: &ObjectClass, method: &Method) -> Result<Vec<u16>, ReadError>
    ensures { Gives (λ v. v.items) result (depths_at class.now method.now) }
{
    if method.arguments.len() > usize::from(method.max_locals) {
        return Err(ReadError::Malformed);
    }
    let first = start_of(alloc, method)?;
    read_depths(alloc, class, method, first)
}

/// How many words are on the stack before each instruction of a method (JVMS 4.9.2, 4.10). `Malformed`
/// says that the method has no walk of kinds: some instruction doesn't find the words that it takes, or
/// the stack or the locals don't suffice, or the last instruction isn't the return of its result.
pub fn walk_depths(
    alloc: Global,
    class: &ObjectClass,
    method: &Method,
) -> Result<Vec<u16>, ReadError>
    ensures found { IfOk result (λ v. (frames : List kinds.Frame) × IsWalk class.now method.now frames × (v.items ≡ map (λ f. length f.stack) frames)) }
    ensures malformed { result ≡ Err ReadError.Malformed → (frames : List kinds.Frame) → IsWalk class.now method.now frames → ⊥ }
{
    read_walk(alloc, class, method)
}
