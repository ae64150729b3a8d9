ghost use Rattle.std.specs.Prelude.{◌≡◌, ◌↔◌, IsTrue, map};
ghost use Rattle.jv_types.specs.Bodies.{rises_from, arg_targets};
ghost use Rattle.jv_insn.specs.Effects.{is_end};
ghost use Rattle.jv_typing.specs.TypeSafe.{FitsThere};
ghost use Rattle.jv_verify.specs.Steps.Checking.{StandsIn, FitsAtEach, FitsNext, FitsOn};

use crate::rows::row_at;
use jv_frames::frame_assignable;
use jv_table::ops;
use jv_types::{Arg, Body, Frame, Insn};
use jv_world::World;

/// Whether an instruction never goes on to the next one (JVMS 4.10.1.6): a goto, a switch, a return, an athrow.
pub fn is_end(op: u8) -> bool
    ensures { result ≡ is_end op }
{
    matches!(
        op,
        ops::GOTO | ops::GOTO_W | ops::TABLESWITCH | ops::LOOKUPSWITCH | ops::IRETURN..=ops::RETURN
            | ops::ATHROW
    )
}

/// Whether a frame stands at an offset to which this one is assignable.
fn fits_there(world: &World, rows: &[(u16, Frame)], pc: u16, frame: &Frame) -> bool
    requires rising { IsTrue (rises_from 0 rows.now) }
    ensures { IsTrue result ↔ FitsThere world.now (StandsIn rows.now) pc frame.now }
{
    match row_at(rows, pc) {
        None => false,
        Some(there) => frame_assignable(world, frame, there),
    }
}

/// Whether a frame fits at each of these offsets.
fn fits_at_each(world: &World, rows: &[(u16, Frame)], targets: &[u16], frame: &Frame) -> bool
    requires rising { IsTrue (rises_from 0 rows.now) }
    ensures { IsTrue result ↔ FitsAtEach world.now rows.now targets.now frame.now }
{
    for target in targets {
        if !fits_there(world, rows, *target, frame) {
            return false;
        }
    }
    true
}

/// Whether a frame fits at the targets of each of these cases.
fn fits_at_cases(world: &World, rows: &[(u16, Frame)], cases: &[(i32, u16)], frame: &Frame) -> bool
    requires rising { IsTrue (rises_from 0 rows.now) }
    ensures { IsTrue result ↔ FitsAtEach world.now rows.now (map (λ (case : _). case.1) cases.now) frame.now }
{
    for case in cases {
        if !fits_there(world, rows, case.1, frame) {
            return false;
        }
    }
    true
}

/// Whether what an instruction leaves fits at each of its targets.
pub fn fits_at_targets(world: &World, rows: &[(u16, Frame)], arg: &Arg, frame: &Frame) -> bool
    requires rising { IsTrue (rises_from 0 rows.now) }
    ensures { IsTrue result ↔ FitsAtEach world.now rows.now (arg_targets arg.now) frame.now }
{
    match arg {
        Arg::Jump(target) => fits_there(world, rows, *target, frame),
        Arg::Table {
            default,
            targets,
            ..
        } => {
            fits_there(world, rows, *default, frame)
                && fits_at_each(world, rows, targets.as_slice(), frame)
        }
        Arg::Lookup { default, cases } => {
            fits_there(world, rows, *default, frame)
                && fits_at_cases(world, rows, cases.as_slice(), frame)
        }
        _ => true,
    }
}

/// Whether what an instruction leaves fits at the next one, if it goes on there.
fn fits_next(
    world: &World,
    body: &Body,
    rows: &[(u16, Frame)],
    pc: u16,
    op: u8,
    after: &Frame,
) -> bool
    requires rising { IsTrue (rises_from 0 rows.now) }
    ensures { IsTrue result ↔ FitsNext world.now body.now (StandsIn rows.now) pc op after.now }
{
    if is_end(op) {
        return true;
    }
    match body.next(pc) {
        None => false,
        Some(next) => fits_there(world, rows, next, after),
    }
}

/// Whether what an instruction leaves fits at the next one and at each target (JVMS 4.10.1.6).
pub fn fits_on(
    world: &World,
    body: &Body,
    rows: &[(u16, Frame)],
    row: &(u16, Insn),
    after: &Frame,
) -> bool
    requires rising { IsTrue (rises_from 0 rows.now) }
    ensures { IsTrue result ↔ FitsOn world.now body.now rows.now row.now.0 row.now.1 after.now }
{
    fits_next(world, body, rows, row.0, row.1.op, after)
        && fits_at_targets(world, rows, &row.1.arg, after)
}
