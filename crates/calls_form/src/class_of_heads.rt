ghost use Rattle.std.specs.Prelude.{◌≡◌};
ghost use Rattle.calls_form.specs.Reading.{Gives};
ghost use Rattle.calls_form.specs.ClassesHeads.{heading_of, headings_of, heading_at, headings_at};

use crate::class_of_flags::{is_allowed, is_visible};
use crate::class_of_pool::text_at;
use crate::outline::{Entry, RawMethod};
use crate::read_error::ReadError;
use jv_types::{Access, Name};
use std::alloc::Global;

/// A method with the texts of its name and descriptor, and the content of its `Code`.
#[derive(Clone, Copy)]
pub struct Head<'a> {
    pub access: Access,
    pub name: &'a Name,
    pub desc: &'a Name,
    pub code: &'a [u8],
}

/// A method's texts, where they are visible and the method is allowed.
#[tactic(auto, unfolding(crate::specs::ClassesHeads::heading_at))]
fn read_head<'a>(pool: &'a [Entry], raw: &'a RawMethod) -> Result<Head<'a>, ReadError>
    ensures { Gives heading_of result (heading_at pool.now raw.now) }
{
    let Some(name) = text_at(pool, raw.name) else {
        return Err(ReadError::Malformed);
    };
    let Some(desc) = text_at(pool, raw.desc) else {
        return Err(ReadError::Malformed);
    };
    if is_visible(name.as_slice())
        && is_visible(desc.as_slice())
        && is_allowed(raw.access, name.as_slice())
    {
        Ok(Head {
            access: raw.access,
            name,
            desc,
            code: raw.code.as_slice(),
        })
    } else {
        Err(ReadError::Malformed)
    }
}

/// The same of each method of a file, in its order.
pub fn read_heads<'a>(
    alloc: Global,
    pool: &'a [Entry],
    raws: &'a [RawMethod],
) -> Result<Vec<Head<'a>>, ReadError>
    ensures { Gives (λ v. headings_of v.items) result (headings_at pool.now raws.now) }
{
    let mut heads = Vec::new(alloc);
    for raw in raws {
        heads.push(read_head(pool, raw)?)?;
    }
    Ok(heads)
}
