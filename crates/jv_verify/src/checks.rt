ghost use Rattle.std.specs.Prelude.{◌≡◌, ◌↔◌, IsTrue, IfOk, Some};
ghost use Rattle.jv_types.specs.declared.frames.Frame.{Frame as FrameValue};
ghost use Rattle.jv_types.specs.Bodies.{rises_from, at_offset, arg_targets};
ghost use Rattle.jv_resolve.specs.Members.{HasMethod};
ghost use Rattle.jv_verify.specs.Steps.Checking.{StandsIn, FitsAtEach, Decides, IsTypedIf, FailsItself, IsLeastBad, FirstFails};
ghost use Rattle.jv_verify.specs.Steps.Forcing.{AreForced};

use crate::goes::{fits_at_targets, fits_on};
use crate::handlers::{earlier, first_unhandled};
use crate::near::row_near;
use crate::next::handed_on;
use crate::step::step;
use jv_types::{Arg, Body, Frame, Insn, MethodId};
use jv_typing::NoTyping;
use jv_world::World;
use std::alloc::{AllocError, Global};

/// Whether a frame stands at the next instruction, which mostly stands at this place, and fits at the targets too.
fn is_handed_right(world: &World, rows: &[(u16, Frame)], place: usize, next: u16, arg: &Arg) -> bool
    requires rising { IsTrue (rises_from 0 rows.now) }
    ensures { IsTrue result ↔ ((after : FrameValue) × StandsIn rows.now next after × FitsAtEach world.now rows.now (arg_targets arg.now) after) }
{
    match row_near(rows, place, next) {
        None => false,
        Some(after) => fits_at_targets(world, rows, arg, after),
    }
}

/// Whether an instruction is typed on the table's frame, and what it leaves fits at the next instruction and at
/// its targets; else it fails there. Where no map stands at the next one, what it leaves was forced there. The row
/// and the instruction mostly stand at this place.
fn is_typed(
    alloc: Global,
    world: &World,
    method: MethodId,
    body: &Body,
    maps: &[(u32, Frame)],
    rows: &[(u16, Frame)],
    place: usize,
    row: &(u16, Insn),
) -> Result<bool, AllocError>
    requires method { HasMethod world.now method }
    requires maps_rising { IsTrue (rises_from 0 maps.now) }
    requires rising { IsTrue (rises_from 0 rows.now) }
    requires forced { AreForced world.now method body.now maps.now rows.now }
    requires stands { at_offset row.now.0 body.now.insns ≡ Some row.now.1 }
    ensures { IfOk result (Decides world.now method body.now rows.now row.now) }
{
    let Some(frame) = row_near(rows, place, row.0) else {
        return Ok(false);
    };
    if let Some(next) = handed_on(body, maps, place, row.0, row.1.op) {
        return Ok(is_handed_right(world, rows, place.saturating_add(1), next, &row.1.arg));
    }
    match step(alloc, world, method, body, frame, row.0, &row.1) {
        Ok(after) => Ok(fits_on(world, body, rows, row, &after)),
        Err(NoTyping::Rule) => Ok(false),
        Err(NoTyping::Memory) => Err(AllocError),
    }
}

/// The least offset at which an instruction isn't typed on the table's frame, or leaves what doesn't fit at the
/// next one or at its targets.
fn first_untyped(
    alloc: Global,
    world: &World,
    method: MethodId,
    body: &Body,
    maps: &[(u32, Frame)],
    rows: &[(u16, Frame)],
) -> Result<Option<u16>, AllocError>
    requires method { HasMethod world.now method }
    requires maps_rising { IsTrue (rises_from 0 maps.now) }
    requires rising { IsTrue (rises_from 0 rows.now) }
    requires forced { AreForced world.now method body.now maps.now rows.now }
    ensures { IfOk result (IsLeastBad (IsTypedIf world.now method body.now rows.now) (FailsItself world.now method body.now rows.now)) }
{
    let mut place = 0usize;
    for row in body.insns.as_slice() {
        if !is_typed(alloc, world, method, body, maps, rows, place, row)? {
            return Ok(Some(row.0));
        }
        place = place.saturating_add(1);
    }
    Ok(None)
}

/// The least offset at which an instruction isn't typed on the table's frame, or leaves what doesn't fit where
/// it goes.
pub fn first_failing(
    alloc: Global,
    world: &World,
    method: MethodId,
    body: &Body,
    maps: &[(u32, Frame)],
    rows: &[(u16, Frame)],
) -> Result<Option<u16>, AllocError>
    requires method { HasMethod world.now method }
    requires maps_rising { IsTrue (rises_from 0 maps.now) }
    requires rising { IsTrue (rises_from 0 rows.now) }
    requires forced { AreForced world.now method body.now maps.now rows.now }
    ensures { IfOk result (FirstFails world.now method body.now rows.now) }
{
    let untyped = first_untyped(alloc, world, method, body, maps, rows)?;
    let unhandled = first_unhandled(alloc, world, rows, body.handlers.as_slice())?;
    Ok(earlier(untyped, unhandled))
}
