ghost use Rattle.std.specs.Prelude.{◌≡◌};
ghost use Rattle.calls_form.specs.LayoutReading.{method_at, methods_at, counted_methods_at};
ghost use Rattle.calls_form.specs.Reading.{Gives};

use crate::attributes::read_one_code;
use crate::number::read_u2;
use crate::outline::{Entry, RawMethod};
use crate::pool::read_pair;
use crate::read_error::ReadError;
use jv_types::{Access, Seq};
use std::alloc::Global;

/// A method (JVMS 4.6), and the bytes after it.
#[tactic(auto, unfolding(crate::specs::LayoutReading::method_at))]
fn read_method<'a>(
    alloc: Global,
    pool: &[Entry],
    bytes: &'a [u8],
) -> Result<(RawMethod, &'a [u8]), ReadError>
    ensures { Gives (λ x. (x.0, x.1.now)) result (method_at pool.now bytes.now) }
{
    let (access, rest) = read_u2(bytes)?;
    let (name, desc, rest) = read_pair(rest)?;
    let (code, rest) = read_one_code(alloc, pool, rest)?;
    let access = Access(access);
    Ok((
        RawMethod {
            access,
            name,
            desc,
            code,
        },
        rest,
    ))
}

/// As many methods, and the bytes after them.
fn read_methods<'a>(
    alloc: Global,
    pool: &[Entry],
    count: u16,
    bytes: &'a [u8],
) -> Result<(Vec<RawMethod>, &'a [u8]), ReadError>
    ensures { Gives (λ x. (x.0.items, x.1.now)) result (methods_at pool.now count bytes.now) }
{
    let mut methods = Vec::new(alloc);
    let mut rest = bytes;
    for _ in 0..count {
        let (method, after) = read_method(alloc, pool, rest)?;
        methods.push(method)?;
        rest = after;
    }
    Ok((methods, rest))
}

/// A count of methods and as many methods (JVMS 4.1), and the bytes after them.
#[tactic(auto, unfolding(crate::specs::LayoutReading::counted_methods_at))]
pub fn read_counted_methods<'a>(
    alloc: Global,
    pool: &[Entry],
    bytes: &'a [u8],
) -> Result<(Seq<RawMethod>, &'a [u8]), ReadError>
    ensures { Gives (λ x. (x.0, x.1.now)) result (counted_methods_at pool.now bytes.now) }
{
    let (count, rest) = read_u2(bytes)?;
    let (methods, rest) = read_methods(alloc, pool, count, rest)?;
    Ok((Seq::from_vec(methods), rest))
}
