ghost use Rattle.jv_class.specs.Steps.LayoutReading.{indices_at};
ghost use Rattle.jv_read.specs.Reading.{Gives, u2_at};

use jv_bytes::Cursor;
use jv_read::{Part, ReadFault, read_counted, read_u2};
use jv_types::Seq;
use std::alloc::Global;

/// Indices of the pool, read one by one.
#[derive(Clone, Copy)]
struct IndexPart;

impl Part for IndexPart {
    type Item = u16;

    ghost part_at = { λ p bytes. u2_at bytes };

    fn read(&self, cursor: &mut Cursor) -> Result<u16, ReadFault> {
        read_u2(cursor)
    }
}

/// A count, and as many indices.
pub fn read_indices(alloc: Global, cursor: &mut Cursor) -> Result<Seq<u16>, ReadFault>
    ensures { Gives (λ x. x) result cursor.new (indices_at cursor.old) }
{
    let indices = read_counted(alloc, cursor, &IndexPart)?;
    Ok(Seq::from_vec(indices))
}
