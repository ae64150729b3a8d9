ghost use Rattle.std.specs.Prelude.{◌≡◌, ◌<◌, ◌≤◌, ◌+◌, ◌↔◌, ℕ, IsTrue, IfSome, IfNone, Some, slice_get};
ghost use Rattle.std.specs.Option.{option_copied};
ghost use Rattle.jv_types.specs.Bodies.{rises_from, at_offset, IsNextStart, IsStart};

use crate::rows::row_at;
use jv_types::{Body, Frame, Insn};

/// The row of a table at a place.
fn row_here(rows: &[(u16, Frame)], place: usize) -> Option<&(u16, Frame)>
    ensures { IfSome result (λ row. slice_get rows.now place ≡ Some row.now) }
{
    rows.get(place)
}

/// Whether a row is the one of an offset.
fn stands_at(row: &(u16, Frame), pc: u16) -> bool
    ensures { IsTrue result ↔ (row.now.0 ≡ pc) }
{
    row.0 == pc
}

/// The frame of a table at an offset, which mostly stands at this place, and else is found by halves.
pub fn row_near(rows: &[(u16, Frame)], place: usize, pc: u16) -> Option<&Frame>
    requires rising { IsTrue (rises_from 0 rows.now) }
    ensures value { option_copied result ≡ at_offset pc rows.now }
{
    let Some(row) = row_here(rows, place) else {
        return row_at(rows, pc);
    };
    if stands_at(row, pc) {
        return Some(&row.1);
    }
    row_at(rows, pc)
}

/// The instruction at a place.
fn insn_here(insns: &[(u16, Insn)], place: usize) -> Option<&(u16, Insn)>
    ensures { IfSome result (λ row. slice_get insns.now place ≡ Some row.now) }
{
    insns.get(place)
}

/// The place behind one.
fn behind(place: usize) -> usize
    ensures { result ≤ place + 1 }
{
    place.saturating_add(1)
}

/// The instruction behind a place.
fn insn_behind(insns: &[(u16, Insn)], place: usize) -> Option<&(u16, Insn)>
    ensures { IfSome result (λ row. (after : ℕ) × (after ≤ place + 1) × (slice_get insns.now after ≡ Some row.now)) }
{
    insn_here(insns, behind(place))
}

/// Whether one offset is this one, and another lies above it.
fn is_next(own: u16, pc: u16, start: u16) -> bool
    ensures { IsTrue result ↔ ((own ≡ pc) × (pc < start)) }
{
    own == pc && pc < start
}

/// The least offset above this one at which an instruction starts. The instruction at this offset mostly stands at
/// this place; else the next one is found by halves.
pub fn next_near(body: &Body, place: usize, pc: u16) -> Option<u16>
    ensures least { IfSome result (IsNextStart pc body.now.insns) }
    ensures none { IfNone result ((start : ℕ) → pc < start → IsStart body.now.insns start → ⊥) }
{
    let Some(own) = insn_here(body.insns.as_slice(), place) else {
        return body.next(pc);
    };
    let Some(next) = insn_behind(body.insns.as_slice(), place) else {
        return body.next(pc);
    };
    if is_next(own.0, pc, next.0) {
        return Some(next.0);
    }
    body.next(pc)
}
