ghost use Rattle.std.specs.Prelude.{◌≡◌, ◌<◌, ◌+◌, ◌/◌, ◌%◌, ◌^◌, ◌∷◌, ◌++◌, length, Err, OnOk};
ghost use Rattle.std.specs.List.{flat_map, AllByRecursion};
ghost use Rattle.jv_table.specs.declared.tags.TheConstants.{UTF8, METHOD_HANDLE};
ghost use Rattle.jv_pool.specs.PoolText.{u2, u4, u8, item_text, pool_text, IsShort};

use crate::fault::WriteRefusal;
use crate::item::PoolItem;
use crate::pool::Pool;
use jv_bytes::Writer;
use jv_table::tags;
use std::alloc::AllocError;

/// Writes a tag and an index.
fn put_index(writer: &mut Writer, tag: u8, index: u16) -> Result<(), AllocError>
    ensures { OnOk result (writer.new ≡ writer.old ++ (tag ∷ u2 index)) }
{
    writer.put_u1(tag)?;
    writer.put_u2(index)
}

/// Writes a tag and two indices.
fn put_pair(writer: &mut Writer, tag: u8, first: u16, second: u16) -> Result<(), AllocError>
    ensures { OnOk result (writer.new ≡ writer.old ++ (tag ∷ u2 first ++ u2 second)) }
{
    put_index(writer, tag, first)?;
    writer.put_u2(second)
}

/// Writes a tag and a number of four bytes.
fn put_word(writer: &mut Writer, tag: u8, word: u32) -> Result<(), AllocError>
    ensures { OnOk result (writer.new ≡ writer.old ++ (tag ∷ u4 word)) }
{
    writer.put_u1(tag)?;
    writer.put_u4(word)
}

/// Writes a tag and a number of eight bytes.
fn put_words(writer: &mut Writer, tag: u8, number: u64) -> Result<(), AllocError>
    ensures { OnOk result (writer.new ≡ writer.old ++ (tag ∷ u8 number)) }
{
    let high = (number / 0x1_0000_0000) as u32;
    let low = (number % 0x1_0000_0000) as u32;
    put_word(writer, tag, high)?;
    writer.put_u4(low)
}

/// Writes a method handle.
fn put_handle(writer: &mut Writer, kind: u8, member: u16) -> Result<(), AllocError>
    ensures { OnOk result (writer.new ≡ writer.old ++ (METHOD_HANDLE ∷ kind ∷ u2 member)) }
{
    writer.put_u1(tags::METHOD_HANDLE)?;
    put_index(writer, kind, member)
}

/// Writes a text. One of more than 65535 bytes is refused.
fn put_text(writer: &mut Writer, text: &[u8]) -> Result<(), WriteRefusal>
    ensures ok { OnOk result ((length text.now < 2 ^ 16) × (writer.new ≡ writer.old ++ (UTF8 ∷ u2 (length text.now) ++ text.now))) }
    ensures long { result ≡ Err WriteRefusal.TooLong → length text.now < 2 ^ 16 → ⊥ }
{
    if text.len() > 65535 {
        return Err(WriteRefusal::TooLong);
    }
    put_index(writer, tags::UTF8, text.len() as u16)?;
    writer.bytes(text)?;
    Ok(())
}

/// Writes an item (JVMS 4.4). A text of more than 65535 bytes is refused.
fn put_item(writer: &mut Writer, item: &PoolItem) -> Result<(), WriteRefusal>
    ensures ok { OnOk result (IsShort item.now × (writer.new ≡ writer.old ++ item_text item.now)) }
    ensures long { result ≡ Err WriteRefusal.TooLong → IsShort item.now → ⊥ }
{
    match item {
        PoolItem::Utf8(text) => put_text(writer, text.as_slice())?,
        PoolItem::Integer(number) => put_word(writer, tags::INTEGER, number.cast_unsigned())?,
        PoolItem::Float(bits) => put_word(writer, tags::FLOAT, *bits)?,
        PoolItem::Long(number) => put_words(writer, tags::LONG, number.cast_unsigned())?,
        PoolItem::Double(bits) => put_words(writer, tags::DOUBLE, *bits)?,
        PoolItem::Class(name) => put_index(writer, tags::CLASS, *name)?,
        PoolItem::Text(text) => put_index(writer, tags::STRING, *text)?,
        PoolItem::Field(class, pair) => put_pair(writer, tags::FIELDREF, *class, *pair)?,
        PoolItem::Method(class, pair) => put_pair(writer, tags::METHODREF, *class, *pair)?,
        PoolItem::InterfaceMethod(class, pair) => put_pair(
            writer,
            tags::INTERFACE_METHODREF,
            *class,
            *pair,
        )?,
        PoolItem::NameAndType(name, desc) => put_pair(writer, tags::NAME_AND_TYPE, *name, *desc)?,
        PoolItem::MethodHandle(kind, member) => put_handle(writer, *kind, *member)?,
        PoolItem::MethodType(desc) => put_index(writer, tags::METHOD_TYPE, *desc)?,
        PoolItem::InvokeDynamic(bootstrap, pair) => put_pair(
            writer,
            tags::INVOKE_DYNAMIC,
            *bootstrap,
            *pair,
        )?,
        PoolItem::Hole => {}
    }
    Ok(())
}

/// Writes items one after the other.
fn put_items(writer: &mut Writer, items: &[PoolItem]) -> Result<(), WriteRefusal>
    ensures ok { OnOk result (AllByRecursion IsShort items.now × (writer.new ≡ writer.old ++ flat_map item_text items.now)) }
    ensures long { result ≡ Err WriteRefusal.TooLong → AllByRecursion IsShort items.now → ⊥ }
{
    for item in items {
        put_item(writer, item)?;
    }
    Ok(())
}

/// Writes a constant pool (JVMS 4.1, 4.4). It is refused `TooLong` exactly where a text has more than
/// 65535 bytes. After a refusal a front of the pool may be written.
pub fn put_pool(writer: &mut Writer, pool: &Pool) -> Result<(), WriteRefusal>
    requires { 1 + length pool.now < 2 ^ 16 }
    ensures ok { OnOk result (AllByRecursion IsShort pool.now × (writer.new ≡ writer.old ++ pool_text pool.now)) }
    ensures long { result ≡ Err WriteRefusal.TooLong → AllByRecursion IsShort pool.now → ⊥ }
{
    let items = pool.items();
    let count = 1 + items.len();
    writer.put_u2(count as u16)?;
    put_items(writer, items)
}
