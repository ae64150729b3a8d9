ghost use Rattle.std.specs.Prelude.{◌≡◌, None};
ghost use Rattle.std.specs.List.{slice_get};
ghost use Rattle.calls_form.specs.LayoutReading.{attribute_at, behind_at, passed_at, is_code, found_at, code_at, one_code_at};
ghost use Rattle.calls_form.specs.Reading.{Gives};

use crate::number::{read_bytes, read_u2, read_u4};
use crate::outline::Entry;
use crate::read_error::ReadError;
use jv_types::Seq;
use std::alloc::Global;

/// An attribute (JVMS 4.7): the index of its name, its content, and the bytes after it.
#[tactic(auto, unfolding(crate::specs::LayoutReading::attribute_at))]
fn read_attribute(bytes: &[u8]) -> Result<(u16, &[u8], &[u8]), ReadError>
    ensures { Gives (λ x. (x.0, x.1.now, x.2.now)) result (attribute_at bytes.now) }
{
    let (name, rest) = read_u2(bytes)?;
    let (len, rest) = read_u4(rest)?;
    let (content, rest) = read_bytes(rest, len as usize)?;
    Ok((name, content, rest))
}

/// The bytes after as many attributes, none of which is looked at.
fn pass_attributes(count: u16, bytes: &[u8]) -> Result<&[u8], ReadError>
    ensures { Gives (λ x. x.now) result (behind_at count bytes.now) }
{
    let mut rest = bytes;
    for _ in 0..count {
        let (_name, _content, after) = read_attribute(rest)?;
        rest = after;
    }
    Ok(rest)
}

/// The bytes after a count and as many attributes.
#[tactic(auto, unfolding(crate::specs::LayoutReading::passed_at))]
pub fn pass_counted(bytes: &[u8]) -> Result<&[u8], ReadError>
    ensures { Gives (λ x. x.now) result (passed_at bytes.now) }
{
    let (count, rest) = read_u2(bytes)?;
    pass_attributes(count, rest)
}

/// Whether an attribute of this name is `Code` (JVMS 4.7.3). An index that names no text isn't.
#[tactic(auto, unfolding(crate::specs::LayoutReading::is_code))]
fn is_code(pool: &[Entry], name: u16) -> bool
    ensures { result ≡ is_code (slice_get pool.now name) }
{
    match pool.get(usize::from(name)) {
        Some(Entry::Utf8(text)) => text.as_slice() == b"Code".as_slice(),
        _ => false,
    }
}

/// The content of the `Code` among the attributes so far, behind one attribute more. There is at most
/// one.
#[tactic(auto, unfolding(crate::specs::LayoutReading::found_at))]
fn keep_code(
    alloc: Global,
    pool: &[Entry],
    found: Option<Seq<u8>>,
    name: u16,
    content: &[u8],
) -> Result<Option<Seq<u8>>, ReadError>
    ensures { Gives (λ x. x) result (found_at pool.now found name content.now) }
{
    if !is_code(pool, name) {
        return Ok(found);
    }
    if found.is_some() {
        return Err(ReadError::Malformed);
    }
    Ok(Some(Seq::from_vec(Vec::from_slice(alloc, content)?)))
}

/// The content of the `Code` among as many attributes, if there is one, and the bytes after them.
fn find_code<'a>(
    alloc: Global,
    pool: &[Entry],
    count: u16,
    bytes: &'a [u8],
) -> Result<(Option<Seq<u8>>, &'a [u8]), ReadError>
    ensures { Gives (λ x. (x.0, x.1.now)) result (code_at pool.now count None bytes.now) }
{
    let mut found = None;
    let mut rest = bytes;
    for _ in 0..count {
        let (name, content, after) = read_attribute(rest)?;
        found = keep_code(alloc, pool, found, name, content)?;
        rest = after;
    }
    Ok((found, rest))
}

/// The content of the one `Code` among a count of attributes (JVMS 4.6), and the bytes after them.
#[tactic(auto, unfolding(crate::specs::LayoutReading::one_code_at))]
pub fn read_one_code<'a>(
    alloc: Global,
    pool: &[Entry],
    bytes: &'a [u8],
) -> Result<(Seq<u8>, &'a [u8]), ReadError>
    ensures { Gives (λ x. (x.0, x.1.now)) result (one_code_at pool.now bytes.now) }
{
    let (count, rest) = read_u2(bytes)?;
    let (found, rest) = find_code(alloc, pool, count, rest)?;
    match found {
        Some(content) => Ok((content, rest)),
        None => Err(ReadError::Malformed),
    }
}
