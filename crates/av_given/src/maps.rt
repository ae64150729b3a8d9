ghost use Rattle.std.specs.Prelude.{◌≡◌, ℕ, List, IfOk, IfNone, IfSome};
ghost use Rattle.jv_frames.specs.Maps.{written_frames};
ghost use Rattle.av_given.specs.Steps.Adding.{Adds};
ghost use Rattle.av_given.specs.Steps.Parts.{FrameNames, FramesName, TypeNames, TypesName};

use jv_attr::{Attr, AttrBody, MapFrame, MapType, NoCode};
use jv_pool::Pool;
use jv_types::Name;
use std::alloc::{AllocError, Global};

/// The tag of a written type that names a class or an array type (JVMS 4.7.4).
const OBJECT: u8 = 7;

/// The frames of the StackMapTable among the attributes of a code; none without it.
pub fn written_frames(attrs: &[Attr<NoCode>]) -> &[MapFrame]
    ensures { result.now ≡ written_frames attrs.now }
{
    for attr in attrs {
        if let AttrBody::Maps(frames) = &attr.body {
            return frames.as_slice();
        }
    }
    &[]
}

/// The text of the class or array type that a written type names.
fn name_of(pool: &Pool, written: MapType) -> Option<&[u8]>
    ensures named { IfSome result (λ text. TypeNames pool.now written text.now) }
    ensures none { IfNone result ((text : List ℕ) → ¬ TypeNames pool.now written text) }
{
    if written.tag != OBJECT {
        return None;
    }
    pool.class_name(written.arg)
}

/// The texts, with the one that a written type names.
fn add_type(
    alloc: Global,
    pool: &Pool,
    written: MapType,
    mut texts: Vec<Name>,
) -> Result<Vec<Name>, AllocError>
    ensures { IfOk result (λ new. Adds (TypeNames pool.now written) texts.items new.items) }
{
    match name_of(pool, written) {
        None => Ok(texts),
        Some(text) => {
            let name = Name::from_slice(alloc, text)?;
            texts.push(name)?;
            Ok(texts)
        }
    }
}

/// The texts, with those that written types name.
fn add_types(
    alloc: Global,
    pool: &Pool,
    types: &[MapType],
    texts: Vec<Name>,
) -> Result<Vec<Name>, AllocError>
    ensures { IfOk result (λ new. Adds (TypesName pool.now types.now) texts.items new.items) }
{
    let mut named = texts;
    for written in types {
        let next = add_type(alloc, pool, *written, named)?;
        named = next;
    }
    Ok(named)
}

/// The texts, with those that the types of a frame name.
fn add_frame(
    alloc: Global,
    pool: &Pool,
    frame: &MapFrame,
    texts: Vec<Name>,
) -> Result<Vec<Name>, AllocError>
    ensures { IfOk result (λ new. Adds (FrameNames pool.now frame.now) texts.items new.items) }
{
    let locals = frame.locals.as_slice();
    let stack = frame.stack.as_slice();
    let first = add_types(alloc, pool, locals, texts)?;
    let both = add_types(alloc, pool, stack, first)?;
    Ok(both)
}

/// The texts, with those that the types of frames name.
pub fn add_frames(
    alloc: Global,
    pool: &Pool,
    frames: &[MapFrame],
    texts: Vec<Name>,
) -> Result<Vec<Name>, AllocError>
    ensures { IfOk result (λ new. Adds (FramesName pool.now frames.now) texts.items new.items) }
{
    let mut named = texts;
    for frame in frames {
        let next = add_frame(alloc, pool, frame, named)?;
        named = next;
    }
    Ok(named)
}
