ghost use Rattle.std.specs.Prelude.{◌≡◌};
ghost use Rattle.calls_form.specs.Opcodes.{constant_format, local_format, operation_format, format_of, named};

use crate::object_class::{Instruction, Kind};
use crate::target::Target;

/// What follows an opcode in the code, and what the instruction is.
#[derive(Clone, Copy)]
pub enum Format {
    /// Nothing follows.
    Alone(Instruction),
    /// A byte that is pushed as an int.
    Byte,
    /// Two bytes that are pushed as an int.
    Short,
    /// The index of a local, from which a word of this kind is loaded.
    LoadAt(Kind),
    /// The index of a local, to which a word of this kind is stored.
    StoreAt(Kind),
    /// The index in the pool of what is named.
    Named,
}

/// The constants, opcodes 0 to 17 (JVMS 6.5).
fn constant_format(op: u8) -> Option<Format>
    ensures { result ≡ constant_format op }
{
    match op {
        0 => Some(Format::Alone(Instruction::Nop)),
        1 => Some(Format::Alone(Instruction::PushNull)),
        2..=8 => Some(Format::Alone(Instruction::PushWord)),
        16 => Some(Format::Byte),
        17 => Some(Format::Short),
        _ => None,
    }
}

/// The loads and stores, opcodes 21 to 78 (JVMS 6.5).
fn local_format(op: u8) -> Option<Format>
    ensures { result ≡ local_format op }
{
    match op {
        21 => Some(Format::LoadAt(Kind::Word)),
        25 => Some(Format::LoadAt(Kind::Reference)),
        26..=29 => Some(Format::Alone(load(Kind::Word, op - 26))),
        42..=45 => Some(Format::Alone(load(Kind::Reference, op - 42))),
        54 => Some(Format::StoreAt(Kind::Word)),
        58 => Some(Format::StoreAt(Kind::Reference)),
        59..=62 => Some(Format::Alone(store(Kind::Word, op - 59))),
        75..=78 => Some(Format::Alone(store(Kind::Reference, op - 75))),
        _ => None,
    }
}

/// A load of this kind from the local at this index.
pub fn load(kind: Kind, local: u8) -> Instruction
    ensures { result ≡ Instruction.Load kind local }
{
    Instruction::Load {
        kind,
        local: u16::from(local),
    }
}

/// A store of this kind to the local at this index.
pub fn store(kind: Kind, local: u8) -> Instruction
    ensures { result ≡ Instruction.Store kind local }
{
    Instruction::Store {
        kind,
        local: u16::from(local),
    }
}

/// The operations on the stack, the returns and what names something, opcodes 87 to 187 (JVMS 6.5).
fn operation_format(op: u8) -> Option<Format>
    ensures { result ≡ operation_format op }
{
    match op {
        87 => Some(Format::Alone(Instruction::Pop)),
        89 => Some(Format::Alone(Instruction::Dup)),
        96 | 100 | 104 | 126 | 128 | 130 => Some(Format::Alone(Instruction::Combine)),
        116 => Some(Format::Alone(Instruction::Negate)),
        172 => Some(Format::Alone(Instruction::Return(Some(Kind::Word)))),
        176 => Some(Format::Alone(Instruction::Return(Some(Kind::Reference)))),
        177 => Some(Format::Alone(Instruction::Return(None))),
        178..=184 | 187 => Some(Format::Named),
        _ => None,
    }
}

/// What follows an opcode, where it is one of this form.
pub fn format_of(op: u8) -> Option<Format>
    ensures { result ≡ format_of op }
{
    if op < 21 {
        constant_format(op)
    } else if op < 87 {
        local_format(op)
    } else {
        operation_format(op)
    }
}

/// The instruction of an opcode that names this, where it may (JVMS 6.5).
pub fn named(op: u8, target: Target) -> Option<Instruction>
    ensures { result ≡ named op target }
{
    match target {
        Target::Field(place) => match op {
            178 => Some(Instruction::GetStatic(place)),
            179 => Some(Instruction::PutStatic(place)),
            180 => Some(Instruction::GetField(place)),
            181 => Some(Instruction::PutField(place)),
            _ => None,
        },
        Target::Method(place) => match op {
            182 => Some(Instruction::InvokeVirtual(place)),
            183 => Some(Instruction::InvokeSpecial(place)),
            184 => Some(Instruction::InvokeStatic(place)),
            _ => None,
        },
        Target::ObjectInit => match op {
            183 => Some(Instruction::InvokeObjectInit),
            _ => None,
        },
        Target::This => match op {
            187 => Some(Instruction::New),
            _ => None,
        },
    }
}
