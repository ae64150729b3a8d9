ghost use Rattle.std.specs.Prelude.{◌≡◌, ℕ, ◌+◌, ◌≤◌, ◌^◌, ◌<◌, length, IfOk};
ghost use Rattle.calls_model.specs.First.Machine.{argument_count};
ghost use Rattle.calls_facts.specs.First.Depths.{result_count, taken, given};

use calls_form::object_class::{Instruction, Kind, Method, ObjectClass, Placed};
use std::alloc::{AllocError, Global};

/// An instruction of a method as the rules see it.
#[derive(Clone, Copy, Debug, PartialEq, Eq, PartialOrd, Ord)]
pub struct Step {
    /// Its offset in bytes.
    pub pc: u16,
    /// The offset of the next instruction, and 0 where there is none.
    pub next: u16,
    /// How many words stand on the stack before it.
    pub depth: u16,
    pub instruction: Instruction,
}

/// How many words a call of the method at a place takes.
fn argument_count(class: &ObjectClass, place: u16) -> usize
    ensures { result ≡ argument_count class.now place }
{
    match class.methods.as_slice().get(usize::from(place)) {
        None => 0,
        Some(method) => method.arguments.len(),
    }
}

/// How many words a call of the method at a place gives.
fn result_count(class: &ObjectClass, place: u16) -> usize
    ensures gives { result ≡ result_count class.now place }
    ensures few { result ≤ 1 }
{
    match class.methods.as_slice().get(usize::from(place)) {
        None => 0,
        Some(method) => match method.result {
            None => 0,
            Some(_) => 1,
        },
    }
}

/// How many words an instruction takes from the stack (JVMS 6.5).
pub fn taken(class: &ObjectClass, instruction: Instruction) -> usize
    ensures { result ≡ taken class.now instruction }
{
    match instruction {
        Instruction::Nop
        | Instruction::PushNull
        | Instruction::PushWord
        | Instruction::Load { .. }
        | Instruction::GetStatic(_)
        | Instruction::New
        | Instruction::Return(None) => 0,
        Instruction::Store { .. }
        | Instruction::Pop
        | Instruction::Dup
        | Instruction::Negate
        | Instruction::PutStatic(_)
        | Instruction::GetField(_)
        | Instruction::InvokeObjectInit
        | Instruction::Return(Some(_)) => 1,
        Instruction::Combine | Instruction::PutField(_) => 2,
        Instruction::InvokeVirtual(place)
        | Instruction::InvokeSpecial(place)
        | Instruction::InvokeStatic(place) => argument_count(class, place),
    }
}

/// How many words an instruction gives to the stack (JVMS 6.5).
pub fn given(class: &ObjectClass, instruction: Instruction) -> usize
    ensures gives { result ≡ given class.now instruction }
    ensures few { result ≤ 2 }
{
    match instruction {
        Instruction::Nop
        | Instruction::Store { .. }
        | Instruction::Pop
        | Instruction::PutStatic(_)
        | Instruction::PutField(_)
        | Instruction::InvokeObjectInit
        | Instruction::Return(_) => 0,
        Instruction::PushNull
        | Instruction::PushWord
        | Instruction::Load { .. }
        | Instruction::Combine
        | Instruction::Negate
        | Instruction::GetStatic(_)
        | Instruction::GetField(_)
        | Instruction::New => 1,
        Instruction::Dup => 2,
        Instruction::InvokeVirtual(place)
        | Instruction::InvokeSpecial(place)
        | Instruction::InvokeStatic(place) => result_count(class, place),
    }
}
