ghost use Rattle.std.specs.Prelude.{◌≡◌, List, ℕ, Option};
ghost use Rattle.jv_read.specs.Reading.{Gives, many_at, counted_at};

use crate::fault::ReadFault;
use crate::number::read_u2;
use jv_bytes::Cursor;
use std::alloc::Global;

/// A reader of one kind of part, with all that it needs to know: its meaning is a function on lists.
pub trait Part {
    /// What is read.
    type Item: Drop;

    ghost part_at: { Self → List ℕ → Option (Self.Item × List ℕ) };

    /// Reads a part from the front of the bytes that are left, and passes it.
    fn read(&self, cursor: &mut Cursor) -> Result<Self::Item, ReadFault>
        ensures { Gives (λ x. x) result cursor.new (part_at self.now cursor.old) };
}

/// As many parts, one after the other. Memory grows as parts are read, whatever the count says.
pub fn read_many<P: Part>(
    alloc: Global,
    cursor: &mut Cursor,
    part: &P,
    count: u64,
) -> Result<Vec<P::Item>, ReadFault>
    ensures { Gives (λ x. x.items) result cursor.new (many_at (P.part_at part.now) count cursor.old) }
{
    let mut items = Vec::new(alloc);
    for _ in 0..count {
        let item = part.read(cursor)?;
        items.push(item)?;
    }
    Ok(items)
}

/// A count of two bytes, and as many parts.
#[tactic(auto, unfolding(crate::specs::Reading::counted_at))]
pub fn read_counted<P: Part>(
    alloc: Global,
    cursor: &mut Cursor,
    part: &P,
) -> Result<Vec<P::Item>, ReadFault>
    ensures { Gives (λ x. x.items) result cursor.new (counted_at (P.part_at part.now) cursor.old) }
{
    let count = read_u2(cursor)?;
    read_many(alloc, cursor, part, u64::from(count))
}
