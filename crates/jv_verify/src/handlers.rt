ghost use Rattle.std.specs.Prelude.{◌≡◌, ◌↔◌, ◌∷◌, [], All, IsTrue, IfOk, IfSome, IfNone};
ghost use Rattle.std.specs.List.{AllZip};
ghost use Rattle.std.specs.Option.{option_copied};
ghost use Rattle.jv_types.specs.Bodies.{rises_from};
ghost use Rattle.jv_frames.specs.Assignable.{IsAssignable};
ghost use Rattle.jv_typing.specs.TypeSafe.{caught_name};
ghost use Rattle.jv_verify.specs.Steps.Checking.{BeginsThere, FitsTarget, IsTarget, SatisfiesAt, FailsHandlerAt, SatisfiesAllAt, FailsSomeAt, IsLeastBad, AreWithin, IsFirstWithout, earlier};

use crate::rows::row_at;
use jv_frames::{are_assignable, assignable};
use jv_types::{Copied, Frame, Handler, Name, VType};
use jv_world::World;
use std::alloc::{AllocError, Global};

/// The class that a handler catches: Throwable where it catches all (JVMS 4.7.3, catch_type). Only memory can be
/// wanting.
fn caught_name(alloc: Global, handler: &Handler) -> Result<Name, AllocError>
    ensures { IfOk result (λ name. name ≡ caught_name handler.now.catch) }
{
    match &handler.catch {
        None => Name::from_slice(alloc, b"java/lang/Throwable".as_slice()),
        Some(name) => Ok(name.copy()?),
    }
}

/// Whether what is caught may stand alone on the stack of a frame.
fn has_caught(world: &World, caught: VType, there: &Frame) -> bool
    ensures { IsTrue result ↔ AllZip (IsAssignable world.now) (caught ∷ []) there.now.stack }
{
    let [only] = there.stack.as_slice() else {
        return false;
    };
    assignable(world, &caught, only)
}

/// The frame at the target of a handler, where the handler catches throwables and what it catches may stand alone
/// on the stack there (JVMS 4.10.1.6).
fn target_of<'a>(
    alloc: Global,
    world: &World,
    rows: &'a [(u16, Frame)],
    handler: &Handler,
) -> Result<Option<&'a Frame>, AllocError>
    requires rising { IsTrue (rises_from 0 rows.now) }
    ensures { IfOk result (λ o. IsTarget world.now rows.now handler.now (option_copied o)) }
{
    let name = caught_name(alloc, handler)?;
    let throwable = Name::from_slice(alloc, b"java/lang/Throwable".as_slice())?;
    if !world.is_sub_named(&name, &throwable) {
        return Ok(None);
    }
    let Some(there) = row_at(rows, handler.target) else {
        return Ok(None);
    };
    if has_caught(world, VType::Class(name), there) {
        Ok(Some(there))
    } else {
        Ok(None)
    }
}

/// Whether a frame fits as a handler begins there, by its local variables and its flag.
fn begins_there(world: &World, frame: &Frame, there: &Frame) -> bool
    ensures { IsTrue result ↔ BeginsThere world.now frame.now there.now }
{
    are_assignable(world, frame.locals.as_slice(), there.locals.as_slice())
        && (!frame.this_uninit || there.this_uninit)
}

/// Whether a frame fits at the target of a handler, if that is right.
fn fits_target(world: &World, there: Option<&Frame>, frame: &Frame) -> bool
    ensures { IsTrue result ↔ FitsTarget world.now (option_copied there.entry) frame.now }
{
    match there {
        None => false,
        Some(there) => begins_there(world, frame, there),
    }
}

/// The first of these rows whose frame doesn't fit at the target of a handler.
fn first_misfit(world: &World, there: Option<&Frame>, rows: &[(u16, Frame)]) -> Option<u16>
    ensures found { IfSome result (IsFirstWithout (FitsTarget world.now (option_copied there.entry)) rows.now) }
    ensures none { IfNone result (All (λ row. FitsTarget world.now (option_copied there.entry) row.1) rows.now) }
{
    for row in rows {
        if !fits_target(world, there, &row.1) {
            return Some(row.0);
        }
    }
    None
}

/// The rows from one offset on and below another, found by halves.
fn within(rows: &[(u16, Frame)], start: u16, end: u16) -> &[(u16, Frame)]
    requires rising { IsTrue (rises_from 0 rows.now) }
    ensures { AreWithin rows.now start end result.now }
{
    let (_, from) = rows.split_at(rows.partition_point(|row| row.0 < start));
    let (covered, _) = from.split_at(from.partition_point(|row| row.0 < end));
    covered
}

/// The least offset whose frame doesn't satisfy a handler that covers it.
fn first_unsatisfied(
    alloc: Global,
    world: &World,
    rows: &[(u16, Frame)],
    handler: &Handler,
) -> Result<Option<u16>, AllocError>
    requires rising { IsTrue (rises_from 0 rows.now) }
    ensures { IfOk result (IsLeastBad (SatisfiesAt world.now rows.now handler.now) (FailsHandlerAt world.now rows.now handler.now)) }
{
    let there = target_of(alloc, world, rows, handler)?;
    let covered = within(rows, handler.start, handler.end);
    Ok(first_misfit(world, there, covered))
}

/// The lesser of two offsets, where there are two.
pub fn earlier(a: Option<u16>, b: Option<u16>) -> Option<u16>
    ensures { result ≡ earlier a b }
{
    match (a, b) {
        (None, _) => b,
        (Some(_), None) => a,
        (Some(pc), Some(other)) => Some(pc.min(other)),
    }
}

/// The least offset whose frame doesn't satisfy one of the handlers that cover it. Each handler goes over what it
/// covers, and asks for local variables and flag alone.
pub fn first_unhandled(
    alloc: Global,
    world: &World,
    rows: &[(u16, Frame)],
    handlers: &[Handler],
) -> Result<Option<u16>, AllocError>
    requires rising { IsTrue (rises_from 0 rows.now) }
    ensures { IfOk result (IsLeastBad (SatisfiesAllAt world.now rows.now handlers.now) (FailsSomeAt world.now rows.now handlers.now)) }
{
    let mut least = None;
    for handler in handlers {
        least = earlier(least, first_unsatisfied(alloc, world, rows, handler)?);
    }
    Ok(least)
}
