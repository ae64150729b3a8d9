ghost use Rattle.std.specs.Prelude.{◌≡◌, ◌++◌, IsTrue, IfOk, OnOk, Some, None, []};
ghost use Rattle.std.specs.Option.{option_copied};
ghost use Rattle.jv_types.specs.Bodies.{rises_from, at_offset};
ghost use Rattle.jv_resolve.specs.Members.{HasMethod};
ghost use Rattle.jv_verify.specs.Steps.Forcing.{forced_here, with_frame, IsLeft, AreForcedFrom};

use crate::next::handed_on;
use crate::rows::map_at;
use crate::step::step;
use jv_types::{Body, Copied, Frame, Insn, MethodId};
use jv_typing::NoTyping;
use jv_world::World;
use std::alloc::{AllocError, Global};

/// The frame at an instruction: the map's where one stands there, or else what comes from before.
fn forced_here(
    maps: &[(u32, Frame)],
    pc: u16,
    left: Option<Frame>,
) -> Result<Option<Frame>, AllocError>
    requires rising { IsTrue (rises_from 0 maps.now) }
    ensures { IfOk result (λ here. here ≡ forced_here (at_offset pc maps.now) left) }
{
    match map_at(maps, pc) {
        None => Ok(left),
        Some(frame) => Ok(Some(frame.copy()?)),
    }
}

/// What the instruction at an offset leaves at the next one, where no map stands there.
fn left_by(
    alloc: Global,
    world: &World,
    method: MethodId,
    body: &Body,
    maps: &[(u32, Frame)],
    here: &Option<Frame>,
    place: usize,
    pc: u16,
    insn: &Insn,
) -> Result<Option<Frame>, AllocError>
    requires method { HasMethod world.now method }
    requires rising { IsTrue (rises_from 0 maps.now) }
    requires stands { at_offset pc body.now.insns ≡ Some insn.now }
    ensures { IfOk result (IsLeft world.now method body.now maps.now pc insn.now here.now) }
{
    let Some(frame) = here else {
        return Ok(None);
    };
    let Some(_) = handed_on(body, maps, place, pc, insn.op) else {
        return Ok(None);
    };
    match step(alloc, world, method, body, frame, pc, insn) {
        Ok(after) => Ok(Some(after)),
        Err(NoTyping::Rule) => Ok(None),
        Err(NoTyping::Memory) => Err(AllocError),
    }
}

/// Adds a row for a frame, where there is one.
fn put(rows: &mut Vec<(u16, Frame)>, pc: u16, here: Option<Frame>) -> Result<(), AllocError>
    ensures { OnOk result (rows.new.items ≡ rows.old.items ++ with_frame pc here []) }
{
    if let Some(frame) = here {
        rows.push((pc, frame))?;
    }
    Ok(())
}

/// The frames that are forced at the instructions of a code, each with its offset, where this one is at the
/// first instruction unless a map stands there.
pub fn forced_frames(
    alloc: Global,
    world: &World,
    method: MethodId,
    body: &Body,
    maps: &[(u32, Frame)],
    begun: Option<Frame>,
) -> Result<Vec<(u16, Frame)>, AllocError>
    requires method { HasMethod world.now method }
    requires rising { IsTrue (rises_from 0 maps.now) }
    ensures { IfOk result (λ rows. AreForcedFrom world.now method body.now maps.now begun body.now.insns rows.items) }
{
    let mut rows = Vec::with_capacity(alloc, body.insns.len())?;
    let mut left = begun;
    let mut place = 0usize;
    for row in body.insns.as_slice() {
        let here = forced_here(maps, row.0, left)?;
        left = left_by(
            alloc, world, method, body, maps, &here, place, row.0, &row.1,
        )?;
        put(&mut rows, row.0, here)?;
        place = place.saturating_add(1);
    }
    Ok(rows)
}
