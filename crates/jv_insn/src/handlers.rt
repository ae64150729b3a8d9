ghost use Rattle.std.specs.Prelude.{◌≡◌, ◌↔◌, IsTrue, IfOk};
ghost use Rattle.jv_insn.specs.Decoding.{Catches, HasBounds, IsHandler};
ghost use Rattle.jv_insn.specs.Steps.Rows.{AreRows, AreHandlers, lesser};
ghost use Rattle.jv_names.specs.Finding.{Finds};

use crate::places::is_start;
use crate::written::Written;
use jv_names::class_at;
use jv_pool::Pool;
use jv_read::ReadFault;
use jv_types::{Handler, Name, RawHandler, Seq};
use std::alloc::{AllocError, Global};

/// The class that an index of the pool names as what a handler catches, and none where it is 0.
fn catch_of(alloc: Global, pool: &Pool, catch: u16) -> Result<Option<Name>, ReadFault>
    ensures { Finds (λ name. Catches pool.now catch name) result }
{
    if catch == 0 {
        return Ok(None);
    }
    match class_at(alloc, pool, catch) {
        Ok(name) => Ok(Some(name)),
        Err(e) => Err(e),
    }
}

/// Whether the bounds and the target of an entry of the exception table are places of a code of this
/// length.
fn has_bounds(length: u16, rows: &[(u16, Written)], raw: &RawHandler) -> bool
    requires { AreRows rows.now }
    ensures { IsTrue result ↔ HasBounds length rows.now raw.now }
{
    let starts = raw.start < raw.end && is_start(rows, raw.start);
    let ends = raw.end == length || is_start(rows, raw.end);
    starts && ends && is_start(rows, raw.target)
}

/// The handler of an entry of the exception table of a code of this length.
fn handler_of(
    alloc: Global,
    pool: &Pool,
    length: u16,
    rows: &[(u16, Written)],
    raw: &RawHandler,
) -> Result<Handler, ReadFault>
    requires { AreRows rows.now }
    ensures { Finds (λ handler. IsHandler pool.now length rows.now raw.now handler) result }
{
    if !has_bounds(length, rows, raw) {
        return Err(ReadFault::Bad);
    }
    match catch_of(alloc, pool, raw.catch) {
        Ok(catch) => Ok(Handler {
            start: raw.start,
            end: raw.end,
            target: raw.target,
            catch,
        }),
        Err(e) => Err(e),
    }
}

/// The lesser of two offsets, where the first may be missing.
pub fn lesser(first: Option<u16>, second: u16) -> u16
    ensures { result ≡ lesser first second }
{
    match first {
        Some(pc) => pc.min(second),
        None => second,
    }
}

/// The handlers of a code of this length, or the least offset at which an entry of its exception table
/// starts that is no handler.
pub fn handlers_of(
    alloc: Global,
    pool: &Pool,
    length: u16,
    rows: &[(u16, Written)],
    raws: &[RawHandler],
) -> Result<Result<Seq<Handler>, u16>, AllocError>
    requires { AreRows rows.now }
    ensures { IfOk result (λ handlers. AreHandlers pool.now length rows.now raws.now handlers) }
{
    let mut handlers = Vec::new(alloc);
    let mut least = None;
    for raw in raws {
        match handler_of(alloc, pool, length, rows, raw) {
            Ok(handler) => handlers.push(handler)?,
            Err(ReadFault::Bad) => least = Some(lesser(least, raw.start)),
            Err(ReadFault::Memory) => return Err(AllocError),
        }
    }
    match least {
        None => Ok(Ok(Seq::from_vec(handlers))),
        Some(pc) => Ok(Err(pc)),
    }
}
