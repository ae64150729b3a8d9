ghost use Rattle.std.specs.Prelude.{◌≡◌, IfOk};
ghost use Rattle.calls_lines.specs.First.Adding.{worded, numbered, paired};

use jv_types::Name;
use std::alloc::{AllocError, Global};

/// A word and a text behind it, if there is one. Only memory can be wanting.
pub fn worded(alloc: Global, word: &[u8], part: Option<Name>) -> Result<Option<Name>, AllocError>
    ensures { IfOk result (λ text. text ≡ worded word.now part) }
{
    let Some(part) = part else {
        return Ok(None);
    };
    let mut text = Vec::from_slice(alloc, word)?;
    text.extend_from_slice(part.as_slice())?;
    Ok(Some(Name::from_vec(text)))
}

/// A word, a text behind it, if there is one, a space, and a number in decimal. Only memory can be
/// wanting.
pub fn numbered(
    alloc: Global,
    word: &[u8],
    part: Option<Name>,
    number: usize,
) -> Result<Option<Name>, AllocError>
    ensures { IfOk result (λ text. text ≡ numbered word.now part number) }
{
    let Some(part) = part else {
        return Ok(None);
    };
    let mut text = Vec::from_slice(alloc, word)?;
    text.extend_from_slice(part.as_slice())?;
    text.push(b' ')?;
    text.extend_from_slice(number.to_string(alloc)?.as_bytes())?;
    Ok(Some(Name::from_vec(text)))
}

/// A word, two texts behind it, if there are both, and a space between them. Only memory can be wanting.
pub fn paired(
    alloc: Global,
    word: &[u8],
    first: Option<Name>,
    second: Option<Name>,
) -> Result<Option<Name>, AllocError>
    ensures { IfOk result (λ text. text ≡ paired word.now first second) }
{
    let Some(first) = first else {
        return Ok(None);
    };
    let Some(second) = second else {
        return Ok(None);
    };
    let mut text = Vec::from_slice(alloc, word)?;
    text.extend_from_slice(first.as_slice())?;
    text.push(b' ')?;
    text.extend_from_slice(second.as_slice())?;
    Ok(Some(Name::from_vec(text)))
}
