ghost use Rattle.std.specs.Prelude.{◌≡◌, ◌+◌, ◌*◌, ◌^◌};
ghost use Rattle.jv_read.specs.Reading.{Gives};
ghost use Rattle.jv_pool.specs.Steps.PoolReading.{fields_at, item_of};

use crate::item::PoolItem;
use jv_bytes::Cursor;
use jv_read::{ReadFault, read_u1, read_u2, read_u4};
use jv_table::tags;

/// The numbers behind the tag of an item (JVMS 4.4), by their widths.
#[derive(Clone, Copy, Debug, PartialEq, Eq)]
pub enum Fields {
    Index(u16),
    Word(u32),
    Words(u32, u32),
    Pair(u16, u16),
    Handle(u8, u16),
}

/// The numbers of these widths.
#[tactic(auto, unfolding(crate::specs::Steps::PoolReading::fields_at, crate::specs::Steps::PoolReading::index_at, crate::specs::Steps::PoolReading::word_at, crate::specs::Steps::PoolReading::words_at, crate::specs::Steps::PoolReading::pair_at, crate::specs::Steps::PoolReading::handle_at))]
pub fn read_fields(cursor: &mut Cursor, parts: &[u8]) -> Result<Fields, ReadFault>
    ensures { Gives (λ x. x) result cursor.new (fields_at parts.now cursor.old) }
{
    if parts == [2].as_slice() {
        Ok(Fields::Index(read_u2(cursor)?))
    } else if parts == [4].as_slice() {
        Ok(Fields::Word(read_u4(cursor)?))
    } else if parts == [4, 4].as_slice() {
        Ok(Fields::Words(read_u4(cursor)?, read_u4(cursor)?))
    } else if parts == [2, 2].as_slice() {
        Ok(Fields::Pair(read_u2(cursor)?, read_u2(cursor)?))
    } else if parts == [1, 2].as_slice() {
        Ok(Fields::Handle(read_u1(cursor)?, read_u2(cursor)?))
    } else {
        Err(ReadFault::Bad)
    }
}

/// The bits of a long or double (JVMS 4.4.5).
fn bits_of(high: u32, low: u32) -> u64
    ensures { result ≡ high * 2 ^ 32 + low }
{
    (u64::from(high) << 32) + u64::from(low)
}

/// The item of a tag with these numbers. A text has more than its numbers, and is none.
#[tactic(auto, unfolding(crate::specs::Steps::PoolReading::item_of))]
pub fn item_of(tag: u8, fields: Fields) -> Option<PoolItem>
    ensures { result ≡ item_of tag fields }
{
    match (tag, fields) {
        (tags::INTEGER, Fields::Word(bits)) => Some(PoolItem::Integer(bits.cast_signed())),
        (tags::FLOAT, Fields::Word(bits)) => Some(PoolItem::Float(bits)),
        (tags::LONG, Fields::Words(high, low)) => Some(PoolItem::Long(bits_of(
            high, low,
        ).cast_signed())),
        (tags::DOUBLE, Fields::Words(high, low)) => Some(PoolItem::Double(bits_of(high, low))),
        (tags::CLASS, Fields::Index(name)) => Some(PoolItem::Class(name)),
        (tags::STRING, Fields::Index(text)) => Some(PoolItem::Text(text)),
        (tags::FIELDREF, Fields::Pair(class, pair)) => Some(PoolItem::Field(class, pair)),
        (tags::METHODREF, Fields::Pair(class, pair)) => Some(PoolItem::Method(class, pair)),
        (tags::INTERFACE_METHODREF, Fields::Pair(class, pair)) => Some(PoolItem::InterfaceMethod(
            class, pair,
        )),
        (tags::NAME_AND_TYPE, Fields::Pair(name, desc)) => Some(PoolItem::NameAndType(name, desc)),
        (tags::METHOD_HANDLE, Fields::Handle(kind, member)) => Some(PoolItem::MethodHandle(
            kind, member,
        )),
        (tags::METHOD_TYPE, Fields::Index(desc)) => Some(PoolItem::MethodType(desc)),
        (tags::INVOKE_DYNAMIC, Fields::Pair(bootstrap, pair)) => Some(PoolItem::InvokeDynamic(
            bootstrap, pair,
        )),
        _ => None,
    }
}
