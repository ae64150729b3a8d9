//! Verification types and frames as text (JVMS 4.10.1.2). A type is a word: `top`, `int`, `float`, `long` and
//! `double` (each of these two stands for its two words), `null`, `this` for uninitializedThis, `new@PC` for
//! uninitialized, an array's descriptor, or a class's name. A frame is its locals, `|` and its stack, and
//! `!` at the end where the flag flagThisUninit is set.

use crate::names::name_of;
use jv_desc::field_desc;
use jv_types::{Desc, Frame, RefType, Seq, VType};
use sqlite_items::Boxed;
use std::alloc::Global;
use std::test::Fail;

/// What stands behind the brackets of an array's descriptor, and how many there are.
fn innermost(text: &str) -> (&str, usize) {
    match text.rsplit_once('[') {
        None => (text, 0),
        Some((others, inner)) => (inner, others.len().saturating_add(1)),
    }
}

/// An array of one dimension, of what its items are.
fn row_of(alloc: Global, inner: &str) -> Result<VType, Fail> {
    match field_desc(alloc, inner.as_bytes())? {
        Desc::Prim(prim) => Ok(VType::PrimArray(prim)),
        Desc::Ref(RefType::Class(name)) => Ok(VType::Array(Boxed::new(alloc, VType::Class(name))?)),
        Desc::Ref(_) => Err(Fail::from("no array")),
    }
}

/// An array, of its descriptor.
fn array_of(alloc: Global, text: &str) -> Result<VType, Fail> {
    let (inner, brackets) = innermost(text);
    let mut of = row_of(alloc, inner)?;
    for _ in 1..brackets {
        of = VType::Array(Boxed::new(alloc, of)?);
    }
    Ok(of)
}

/// A type of a word.
pub fn vtype_of(alloc: Global, text: &str) -> Result<VType, Fail> {
    if let Some(pc) = text.strip_prefix("new@") {
        return Ok(VType::Uninit(pc.parse::<u16>()?));
    }
    if text.starts_with('[') {
        return array_of(alloc, text);
    }
    Ok(match text {
        "top" => VType::Top,
        "int" => VType::Integer,
        "float" => VType::Float,
        "long" => VType::Long,
        "double" => VType::Double,
        "null" => VType::Null,
        "this" => VType::UninitThis,
        _ => VType::Class(name_of(alloc, text)?),
    })
}

/// Types, of which a long and a double are one each.
pub fn types_of(alloc: Global, text: &str) -> Result<Seq<VType>, Fail> {
    let mut types = Seq::new(alloc);
    for word in text.split(' ') {
        if !word.is_empty() {
            types.push(vtype_of(alloc, word)?)?;
        }
    }
    Ok(types)
}

/// The words of types.
pub fn words_of(alloc: Global, text: &str) -> Result<Seq<VType>, Fail> {
    let mut words = Seq::new(alloc);
    for word in text.split(' ') {
        if !word.is_empty() {
            words.push(vtype_of(alloc, word)?)?;
        }
        if word == "long" || word == "double" {
            words.push(VType::Top)?;
        }
    }
    Ok(words)
}

/// A frame of a text.
pub fn frame_of(alloc: Global, text: &str) -> Result<Frame, Fail> {
    let this_uninit = text.ends_with('!');
    let (locals, stack) = text.split_once('|').unwrap_or((text, ""));
    let (stack, _) = stack.split_once('!').unwrap_or((stack, ""));
    Ok(Frame {
        locals: words_of(alloc, locals)?,
        stack: words_of(alloc, stack)?,
        this_uninit,
    })
}

/// Whether what was found is the frame of a text, or nothing where that is `none`.
pub fn is_frame(alloc: Global, found: Option<Frame>, text: &str) -> Result<bool, Fail> {
    match found {
        None => Ok(text == "none"),
        Some(_) if text == "none" => Ok(false),
        Some(frame) => Ok(frame == frame_of(alloc, text)?),
    }
}
