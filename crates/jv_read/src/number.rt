ghost use Rattle.std.specs.Prelude.{◌≡◌};
ghost use Rattle.jv_read.specs.Reading.{Gives, u1_at, number_at, u2_at, u4_at, bytes_at};

use crate::fault::ReadFault;
use jv_bytes::Cursor;

/// The next byte.
pub fn read_u1(cursor: &mut Cursor) -> Result<u8, ReadFault>
    ensures byte { Gives (λ x. x) result cursor.new (u1_at cursor.old) }
    ensures number { Gives (λ x. x) result cursor.new (number_at 1 cursor.old) }
{
    cursor.u1().ok_or(ReadFault::Bad)
}

/// The number in the next two bytes, the highest first.
pub fn read_u2(cursor: &mut Cursor) -> Result<u16, ReadFault>
    ensures { Gives (λ x. x) result cursor.new (u2_at cursor.old) }
{
    cursor.u2().ok_or(ReadFault::Bad)
}

/// The number in the next four bytes, the highest first.
pub fn read_u4(cursor: &mut Cursor) -> Result<u32, ReadFault>
    ensures { Gives (λ x. x) result cursor.new (u4_at cursor.old) }
{
    cursor.u4().ok_or(ReadFault::Bad)
}

/// The next `count` bytes.
pub fn read_bytes<'a>(cursor: &mut Cursor<'a>, count: usize) -> Result<&'a [u8], ReadFault>
    ensures { Gives (λ x. x.now) result cursor.new (bytes_at count cursor.old) }
{
    cursor.take(count).ok_or(ReadFault::Bad)
}
