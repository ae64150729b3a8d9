ghost use Rattle.jv_attr.specs.Steps.AttrReading.{attr_at};
ghost use Rattle.jv_class.specs.Steps.LayoutReading.{attrs_at};
ghost use Rattle.jv_read.specs.Reading.{Gives};

use jv_attr::{Attr, BadAttr, Owner, read_attr};
use jv_bytes::Cursor;
use jv_pool::Pool;
use jv_read::{Part, ReadFault, read_counted};
use jv_types::Seq;
use std::alloc::Global;

/// The attributes of an owner (JVMS 4.7), read one by one.
#[derive(Clone, Copy)]
struct AttrPart<'p> {
    alloc: Global,
    pool: &'p Pool,
    owner: Owner,
    major: u16,
}

impl Part for AttrPart<'_> {
    type Item = Attr;

    ghost part_at = { λ p bytes. attr_at p.pool.now p.owner p.major bytes };

    fn read(&self, cursor: &mut Cursor) -> Result<Attr, ReadFault> {
        match read_attr(self.alloc, cursor, self.pool, self.owner, self.major) {
            Ok(attr) => Ok(attr),
            Err(BadAttr::Bad) => Err(ReadFault::Bad),
            Err(BadAttr::Memory) => Err(ReadFault::Memory),
        }
    }
}

/// A count, and as many attributes of this owner (JVMS 4.7).
pub fn read_attrs(
    alloc: Global,
    cursor: &mut Cursor,
    pool: &Pool,
    owner: Owner,
    major: u16,
) -> Result<Seq<Attr>, ReadFault>
    ensures { Gives (λ x. x) result cursor.new (attrs_at pool.now owner major cursor.old) }
{
    let part = AttrPart {
        alloc,
        pool,
        owner,
        major,
    };
    let attrs = read_counted(alloc, cursor, &part)?;
    Ok(Seq::from_vec(attrs))
}
