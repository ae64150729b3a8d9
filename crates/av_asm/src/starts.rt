ghost use Rattle.std.specs.Prelude.{◌≡◌, ◌+◌, ◌<◌, ◌≤◌, IfSome, IfNone, IfOk, OnOk};
ghost use Rattle.av_asm.specs.Planning.{start_at, jump_to, insn_of, step_size, starts_from, end_from};

use crate::pushing::push;
use crate::step::Step;
use jv_insn::{EncodeRefusal, size_at};
use jv_types::{Arg, Insn};
use std::alloc::Global;

/// A branch to an offset.
fn jump_to(op: u8, target: u16) -> Insn
    ensures { result ≡ jump_to op target }
{
    Insn {
        op,
        wide: false,
        arg: Arg::Jump(target),
    }
}

/// The offset of an instruction by its number.
pub fn start_at(starts: &[u16], number: u32) -> u16
    ensures { result ≡ start_at starts.now number }
{
    match starts.get(number as usize) {
        Some(start) => *start,
        None => 0,
    }
}

/// An instruction, where all start at these offsets.
pub fn insn_of(starts: &[u16], step: Step) -> Insn
    ensures { result ≡ insn_of starts.now step }
{
    match step {
        Step::Put(insn) => insn,
        Step::Open(op) => jump_to(op, 0),
        Step::Landed(op, number) => jump_to(op, start_at(starts, number)),
    }
}

/// How many bytes an instruction takes at an offset. There is no answer only where these are more than 65535.
fn step_size(pc: u16, step: &Step) -> Option<usize>
    ensures some { IfSome result (λ size. size ≡ step_size pc step.now) }
    ensures none { IfNone result (65535 < step_size pc step.now) }
{
    match step {
        Step::Put(insn) => size_at(pc, insn),
        Step::Open(op) => size_at(pc, &jump_to(*op, 0)),
        Step::Landed(op, _) => size_at(pc, &jump_to(*op, 0)),
    }
}

/// Where an instruction ends that starts at an offset. There is no answer exactly where that is behind 65535.
fn end_at(pc: u16, step: &Step) -> Option<u16>
    ensures some { IfSome result (λ end. end ≡ pc + step_size pc step.now) }
    ensures none { IfNone result (65535 < pc + step_size pc step.now) }
    ensures within { IfSome result (λ end. end ≤ 65535) }
{
    let size = step_size(pc, step)?;
    u16::try_from(size.checked_add(usize::from(pc))?).ok()
}

/// Where each instruction starts and last where the code ends, and this end. It is refused `TooLong` exactly where
/// the end is behind 65535.
pub fn starts_of(alloc: Global, steps: &[Step]) -> Result<(Vec<u16>, u16), EncodeRefusal>
    ensures starts { IfOk result (λ made. made.0.items ≡ starts_from 0 steps.now) }
    ensures end { IfOk result (λ made. made.1 ≡ end_from 0 steps.now) }
    ensures fits { OnOk result (end_from 0 steps.now ≤ 65535) }
    ensures long { result ≡ Err EncodeRefusal.TooLong → 65535 < end_from 0 steps.now }
    ensures never_full { result ≡ Err EncodeRefusal.PoolFull → ⊥ }
{
    let mut starts = Vec::new(alloc);
    let mut pc = 0u16;
    for step in steps {
        push(&mut starts, pc)?;
        match end_at(pc, step) {
            Some(end) => pc = end,
            None => return Err(EncodeRefusal::TooLong),
        }
    }
    push(&mut starts, pc)?;
    Ok((starts, pc))
}
