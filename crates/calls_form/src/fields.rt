ghost use Rattle.std.specs.Prelude.{◌≡◌};
ghost use Rattle.calls_form.specs.LayoutReading.{field_at, fields_at, counted_fields_at};
ghost use Rattle.calls_form.specs.Reading.{Gives};

use crate::attributes::pass_counted;
use crate::number::read_u2;
use crate::outline::RawField;
use crate::pool::read_pair;
use crate::read_error::ReadError;
use jv_types::{Access, Seq};
use std::alloc::Global;

/// A field (JVMS 4.5), whose attributes are passed over, and the bytes after it.
#[tactic(auto, unfolding(crate::specs::LayoutReading::field_at))]
fn read_field(bytes: &[u8]) -> Result<(RawField, &[u8]), ReadError>
    ensures { Gives (λ x. (x.0, x.1.now)) result (field_at bytes.now) }
{
    let (access, rest) = read_u2(bytes)?;
    let (name, desc, rest) = read_pair(rest)?;
    let rest = pass_counted(rest)?;
    let access = Access(access);
    Ok((RawField { access, name, desc }, rest))
}

/// As many fields, and the bytes after them.
fn read_fields(alloc: Global, count: u16, bytes: &[u8]) -> Result<(Vec<RawField>, &[u8]), ReadError>
    ensures { Gives (λ x. (x.0.items, x.1.now)) result (fields_at count bytes.now) }
{
    let mut fields = Vec::new(alloc);
    let mut rest = bytes;
    for _ in 0..count {
        let (field, after) = read_field(rest)?;
        fields.push(field)?;
        rest = after;
    }
    Ok((fields, rest))
}

/// A count of fields and as many fields (JVMS 4.1), and the bytes after them.
#[tactic(auto, unfolding(crate::specs::LayoutReading::counted_fields_at))]
pub fn read_counted_fields(alloc: Global, bytes: &[u8]) -> Result<(Seq<RawField>, &[u8]), ReadError>
    ensures { Gives (λ x. (x.0, x.1.now)) result (counted_fields_at bytes.now) }
{
    let (count, rest) = read_u2(bytes)?;
    let (fields, rest) = read_fields(alloc, count, rest)?;
    Ok((Seq::from_vec(fields), rest))
}
