ghost use Rattle.std.specs.Prelude.{◌↔◌, IsTrue, IfOk, IfErr, Some};
ghost use Rattle.jv_types.specs.Bodies.{rises_from};
ghost use Rattle.jv_resolve.specs.Members.{HasMethod};
ghost use Rattle.jv_typing.specs.TypeSafe.{IsTypeSafe, FailsLeastAt};
ghost use Rattle.jv_verify.specs.Steps.Checking.{FitsFirst, HasBegun, NoneAt, IsReady, FirstFails};
ghost use Rattle.jv_verify.specs.Steps.Forcing.{AreForcedFrom};

use crate::checks::first_failing;
use crate::forced::forced_frames;
use crate::no_table::NoTable;
use crate::rows::map_at;
use jv_frames::{frame_assignable, initial_frame};
use jv_types::{Body, Frame, MethodId};
use jv_world::World;
use std::alloc::{AllocError, Global};

/// Whether the frame as a method begins fits the map at its first instruction, if one stands there.
fn fits_first(world: &World, maps: &[(u32, Frame)], initial: &Frame) -> bool
    requires rising { IsTrue (rises_from 0 maps.now) }
    ensures { IsTrue result ↔ FitsFirst world.now maps.now initial.now }
{
    match map_at(maps, 0) {
        None => true,
        Some(map) => frame_assignable(world, initial, map),
    }
}

/// The frame as a method begins, where there is one that fits the map at the first instruction.
fn begun(
    alloc: Global,
    world: &World,
    method: MethodId,
    body: &Body,
    maps: &[(u32, Frame)],
) -> Result<Frame, NoTable>
    requires method { HasMethod world.now method }
    requires rising { IsTrue (rises_from 0 maps.now) }
    ensures found { IfOk result (HasBegun world.now method body.now maps.now) }
    ensures fails { IfErr result (NoneAt (FailsLeastAt world.now method body.now maps.now)) }
{
    let Some(initial) = initial_frame(alloc, world, method, body.max_locals)? else {
        return Err(NoTable::At { pc: 0 });
    };
    if fits_first(world, maps, &initial) {
        Ok(initial)
    } else {
        Err(NoTable::At { pc: 0 })
    }
}

/// The frames that are forced at the instructions, and the least offset at which one of them fails.
fn forced_and_failing(
    alloc: Global,
    world: &World,
    method: MethodId,
    body: &Body,
    maps: &[(u32, Frame)],
    initial: Frame,
) -> Result<(Vec<(u16, Frame)>, Option<u16>), AllocError>
    requires method { HasMethod world.now method }
    requires ready { IsReady body.now maps.now }
    requires begun { HasBegun world.now method body.now maps.now initial }
    ensures forced { IfOk result (λ both. AreForcedFrom world.now method body.now maps.now (Some initial) body.now.insns both.0.items) }
    ensures first { IfOk result (λ both. FirstFails world.now method body.now both.0.items both.1) }
{
    let rows = forced_frames(alloc, world, method, body, maps, Some(initial))?;
    let failing = first_failing(alloc, world, method, body, maps, rows.as_slice())?;
    Ok((rows, failing))
}

/// The table of frames of a method by its maps (JVMS 4.10.1.6). There is none exactly where it fails at an
/// offset: `At` the least.
pub fn table_of(
    alloc: Global,
    world: &World,
    method: MethodId,
    body: &Body,
    maps: &[(u32, Frame)],
) -> Result<Vec<(u16, Frame)>, NoTable>
    requires method { HasMethod world.now method }
    requires ready { IsReady body.now maps.now }
    ensures typed { IfOk result (λ rows. IsTypeSafe world.now method body.now maps.now rows.items) }
    ensures fails { IfErr result (NoneAt (FailsLeastAt world.now method body.now maps.now)) }
{
    let initial = begun(alloc, world, method, body, maps)?;
    let (rows, failing) = forced_and_failing(alloc, world, method, body, maps, initial)?;
    match failing {
        Some(pc) => Err(NoTable::At { pc }),
        None => Ok(rows),
    }
}
