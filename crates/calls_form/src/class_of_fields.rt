ghost use Rattle.std.specs.Prelude.{◌≡◌, map, IfOk};
ghost use Rattle.calls_form.specs.Reading.{Gives};
ghost use Rattle.calls_form.specs.ClassesHeads.{typed_field, field_at, each};

use crate::class_of_flags::is_visible;
use crate::class_of_pool::text_at;
use crate::class_of_types::read_whole_type;
use crate::object_class::Field;
use crate::outline::{Entry, RawField};
use crate::read_error::ReadError;
use jv_types::{Access, Copied, Name};
use std::alloc::Global;

/// A field of these texts, where they are visible and the descriptor is a type of this form.
#[tactic(auto, unfolding(crate::specs::ClassesHeads::typed_field))]
fn read_typed_field(
    own: &[u8],
    access: Access,
    name: &Name,
    desc: &Name,
) -> Result<Field, ReadError>
    ensures { Gives (λ x. x) result (typed_field own.now access name.now desc.now) }
{
    let kind = read_whole_type(own, desc.as_slice())?;
    if !is_visible(name.as_slice()) || !is_visible(desc.as_slice()) {
        return Err(ReadError::Malformed);
    }
    Ok(Field {
        access,
        name: name.copy()?,
        desc: desc.copy()?,
        kind,
    })
}

/// A field of the class.
#[tactic(auto, unfolding(crate::specs::ClassesHeads::field_at))]
fn read_field(pool: &[Entry], own: &[u8], raw: &RawField) -> Result<Field, ReadError>
    ensures { Gives (λ x. x) result (field_at pool.now own.now raw.now) }
{
    let Some(name) = text_at(pool, raw.name) else {
        return Err(ReadError::Malformed);
    };
    let Some(desc) = text_at(pool, raw.desc) else {
        return Err(ReadError::Malformed);
    };
    read_typed_field(own, raw.access, name, desc)
}

/// The fields of the class, in the order of the file.
pub fn read_fields(
    alloc: Global,
    pool: &[Entry],
    own: &[u8],
    raws: &[RawField],
) -> Result<Vec<Field>, ReadError>
    ensures { Gives (λ v. v.items) result (each (field_at pool.now own.now) raws.now) }
{
    let mut fields = Vec::new(alloc);
    for raw in raws {
        fields.push(read_field(pool, own, raw)?)?;
    }
    Ok(fields)
}
