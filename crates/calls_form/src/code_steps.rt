ghost use Rattle.std.specs.Prelude.{◌≡◌, ◌<◌, ◌^◌, length};
ghost use Rattle.calls_form.specs.Reading.{Gives};
ghost use Rattle.calls_form.specs.ClassesBodies.{target_in, named_at, operands_at, step_at, placed_from};

use crate::number::{read_u1, read_u2};
use crate::object_class::{Instruction, Placed};
use crate::opcode::{Format, format_of, load, named, store};
use crate::read_error::ReadError;
use crate::target::Target;
use std::alloc::Global;

/// The instruction of an opcode that names what the next index names, and what follows it. The table
/// has what each index of the pool names.
#[tactic(auto, unfolding(crate::specs::ClassesBodies::named_at))]
fn read_named<'a>(
    targets: &[Option<Target>],
    op: u8,
    bytes: &'a [u8],
) -> Result<(Instruction, &'a [u8]), ReadError>
    ensures { Gives (λ x. (x.0, x.1.now)) result (named_at (target_in targets.now) op bytes.now) }
{
    let (index, rest) = read_u2(bytes)?;
    let Some(Some(target)) = targets.get(usize::from(index)) else {
        return Err(ReadError::Malformed);
    };
    match named(op, *target) {
        None => Err(ReadError::Malformed),
        Some(instruction) => Ok((instruction, rest)),
    }
}

/// The instruction of an opcode, by what follows it, and what follows that (JVMS 6.5).
#[tactic(auto, unfolding(crate::specs::ClassesBodies::operands_at))]
fn read_operands<'a>(
    targets: &[Option<Target>],
    op: u8,
    format: Format,
    bytes: &'a [u8],
) -> Result<(Instruction, &'a [u8]), ReadError>
    ensures { Gives (λ x. (x.0, x.1.now)) result (operands_at (target_in targets.now) op format bytes.now) }
{
    match format {
        Format::Alone(instruction) => Ok((instruction, bytes)),
        Format::Byte => {
            let (_value, rest) = read_u1(bytes)?;
            Ok((Instruction::PushWord, rest))
        }
        Format::Short => {
            let (_value, rest) = read_u2(bytes)?;
            Ok((Instruction::PushWord, rest))
        }
        Format::LoadAt(kind) => {
            let (local, rest) = read_u1(bytes)?;
            Ok((load(kind, local), rest))
        }
        Format::StoreAt(kind) => {
            let (local, rest) = read_u1(bytes)?;
            Ok((store(kind, local), rest))
        }
        Format::Named => read_named(targets, op, bytes),
    }
}

/// One instruction, and what follows it.
#[tactic(auto, unfolding(crate::specs::ClassesBodies::step_at))]
fn read_step<'a>(
    targets: &[Option<Target>],
    bytes: &'a [u8],
) -> Result<(Instruction, &'a [u8]), ReadError>
    ensures { Gives (λ x. (x.0, x.1.now)) result (step_at (target_in targets.now) bytes.now) }
{
    let (op, rest) = read_u1(bytes)?;
    match format_of(op) {
        None => Err(ReadError::Malformed),
        Some(format) => read_operands(targets, op, format, rest),
    }
}

/// The instructions of a code.
pub fn read_instructions(
    alloc: Global,
    targets: &[Option<Target>],
    bytes: &[u8],
) -> Result<Vec<Placed>, ReadError>
    requires { length bytes.now < 2 ^ 16 }
    ensures { Gives (λ v. v.items) result (placed_from (target_in targets.now) 0 bytes.now) }
{
    let mut placed = Vec::with_capacity(alloc, bytes.len())?;
    let mut rest = bytes;
    while !rest.is_empty() {
        let pc = (bytes.len() - rest.len()) as u16;
        let (instruction, after) = read_step(targets, rest)?;
        placed.push(Placed { pc, instruction })?;
        rest = after;
    }
    Ok(placed)
}
