ghost use Rattle.std.specs.Prelude.{◌≡◌};
ghost use Rattle.calls_form.specs.Layout.{other_width};
ghost use Rattle.calls_form.specs.LayoutReading.{text_at, pair_at, is_wide_tag, other_at, tagged_at, item_at, slot_at, indexed_at, pool_at};
ghost use Rattle.calls_form.specs.Reading.{Gives};

use crate::number::{read_bytes, read_u1, read_u2};
use crate::outline::Entry;
use crate::read_error::ReadError;
use jv_types::{Name, Seq};
use std::alloc::Global;

/// A length of two bytes and as many bytes (JVMS 4.4.7), and the bytes after them.
#[tactic(auto, unfolding(crate::specs::LayoutReading::text_at))]
fn read_text(alloc: Global, bytes: &[u8]) -> Result<(Name, &[u8]), ReadError>
    ensures { Gives (λ x. (x.0, x.1.now)) result (text_at bytes.now) }
{
    let (len, rest) = read_u2(bytes)?;
    let (text, rest) = read_bytes(rest, usize::from(len))?;
    Ok((Name::from_slice(alloc, text)?, rest))
}

/// Two indices, and the bytes after them.
#[tactic(auto, unfolding(crate::specs::LayoutReading::pair_at))]
pub fn read_pair(bytes: &[u8]) -> Result<(u16, u16, &[u8]), ReadError>
    ensures { Gives (λ x. (x.0, x.1, x.2.now)) result (pair_at bytes.now) }
{
    let (first, rest) = read_u2(bytes)?;
    let (second, rest) = read_u2(rest)?;
    Ok((first, second, rest))
}

/// How many bytes follow a tag that isn't kept (JVMS table 4.4-A).
fn width_of(tag: u8) -> Option<usize>
    ensures { result ≡ other_width tag }
{
    match tag {
        3 | 4 => Some(4),
        5 | 6 => Some(8),
        8 | 16 => Some(2),
        11 | 18 => Some(4),
        15 => Some(3),
        _ => None,
    }
}

/// Whether the tag is that of a long or a double, which take two indices (JVMS 4.4.5).
fn is_wide(tag: u8) -> bool
    ensures { result ≡ is_wide_tag tag }
{
    tag == 5 || tag == 6
}

/// An item that isn't kept, behind its tag.
#[tactic(auto, unfolding(crate::specs::LayoutReading::other_at))]
fn pass_other(tag: u8, bytes: &[u8]) -> Result<(Entry, bool, &[u8]), ReadError>
    ensures { Gives (λ x. (x.0, x.1, x.2.now)) result (other_at tag bytes.now) }
{
    let Some(width) = width_of(tag) else {
        return Err(ReadError::Malformed);
    };
    let (_content, rest) = read_bytes(bytes, width)?;
    Ok((Entry::Unused, is_wide(tag), rest))
}

/// An item behind its tag (JVMS 4.4): its entry, whether it takes two indices, and the bytes after it.
#[tactic(auto, unfolding(crate::specs::LayoutReading::tagged_at, crate::specs::LayoutReading::utf8_at, crate::specs::LayoutReading::class_at, crate::specs::LayoutReading::fieldref_at, crate::specs::LayoutReading::methodref_at, crate::specs::LayoutReading::name_and_type_at))]
fn read_tagged(alloc: Global, tag: u8, bytes: &[u8]) -> Result<(Entry, bool, &[u8]), ReadError>
    ensures { Gives (λ x. (x.0, x.1, x.2.now)) result (tagged_at tag bytes.now) }
{
    match tag {
        1 => {
            let (text, rest) = read_text(alloc, bytes)?;
            Ok((Entry::Utf8(text), false, rest))
        }
        7 => {
            let (name, rest) = read_u2(bytes)?;
            Ok((Entry::Class(name), false, rest))
        }
        9 => {
            let (class, name_and_type, rest) = read_pair(bytes)?;
            Ok((Entry::Fieldref(class, name_and_type), false, rest))
        }
        10 => {
            let (class, name_and_type, rest) = read_pair(bytes)?;
            Ok((Entry::Methodref(class, name_and_type), false, rest))
        }
        12 => {
            let (name, desc, rest) = read_pair(bytes)?;
            Ok((Entry::NameAndType(name, desc), false, rest))
        }
        _ => pass_other(tag, bytes),
    }
}

/// An item of the constant pool (JVMS 4.4).
#[tactic(auto, unfolding(crate::specs::LayoutReading::item_at))]
fn read_item(alloc: Global, bytes: &[u8]) -> Result<(Entry, bool, &[u8]), ReadError>
    ensures { Gives (λ x. (x.0, x.1, x.2.now)) result (item_at bytes.now) }
{
    let (tag, rest) = read_u1(bytes)?;
    read_tagged(alloc, tag, rest)
}

/// The entry of the next index, where `taken` says whether the item before it takes this index too.
#[tactic(auto, unfolding(crate::specs::LayoutReading::slot_at))]
fn read_slot(alloc: Global, taken: bool, bytes: &[u8]) -> Result<(Entry, bool, &[u8]), ReadError>
    ensures { Gives (λ x. (x.0, x.1, x.2.now)) result (slot_at taken bytes.now) }
{
    if taken {
        return Ok((Entry::Unused, false, bytes));
    }
    read_item(alloc, bytes)
}

/// The entries of as many indices from 1 on, behind an unused one for 0.
fn read_indexed(alloc: Global, indices: u16, bytes: &[u8]) -> Result<(Vec<Entry>, &[u8]), ReadError>
    ensures { Gives (λ x. (x.0.items, x.1.now)) result (indexed_at indices bytes.now) }
{
    let mut entries = Vec::new(alloc);
    entries.push(Entry::Unused)?;
    let mut wide = false;
    let mut rest = bytes;
    for _ in 0..indices {
        let (entry, takes_two, after) = read_slot(alloc, wide, rest)?;
        entries.push(entry)?;
        wide = takes_two;
        rest = after;
    }
    if wide {
        return Err(ReadError::Malformed);
    }
    Ok((entries, rest))
}

/// The constant pool by index (JVMS 4.1, 4.4), and the bytes after it.
#[tactic(auto, unfolding(crate::specs::LayoutReading::pool_at))]
pub fn read_pool(alloc: Global, bytes: &[u8]) -> Result<(Seq<Entry>, &[u8]), ReadError>
    ensures { Gives (λ x. (x.0, x.1.now)) result (pool_at bytes.now) }
{
    let (count, rest) = read_u2(bytes)?;
    if count == 0 {
        return Err(ReadError::Malformed);
    }
    let (entries, rest) = read_indexed(alloc, count - 1, rest)?;
    Ok((Seq::from_vec(entries), rest))
}
