ghost use Rattle.std.specs.Prelude.{◌≡◌, ◌++◌, ◌-◌, ◌^◌, min, length, IfOk, OnOk};
ghost use Rattle.jv_frames.specs.Types.{is_uninit_this, has_uninit_this, type_words, in_words, padded, frame_of};

use jv_types::{Frame, Seq, VType};
use std::alloc::{AllocError, Global};

/// How many words a value of a type takes.
fn type_size(of: &VType) -> u32
    ensures { result ≡ length (type_words of.now) }
{
    match of {
        VType::Long | VType::Double => 2,
        _ => 1,
    }
}

/// How many words values of these types take. Where they don't fit it is 2^32 - 1.
pub fn word_count(types: &[VType]) -> u32
    ensures { result ≡ min (length (in_words types.now)) (2 ^ 32 - 1) }
{
    let mut words = 0u32;
    for of in types {
        words = words.saturating_add(type_size(of));
    }
    words
}

/// Adds the words of a type at the end. Only memory can be wanting.
fn push_type(words: &mut Vec<VType>, of: &VType) -> Result<(), AllocError>
    ensures { OnOk result (words.new.items ≡ words.old.items ++ type_words of.now) }
{
    let alloc = *words.allocator();
    match of {
        VType::Long => {
            words.push(VType::Long)?;
            words.push(VType::Top)?;
        }
        VType::Double => {
            words.push(VType::Double)?;
            words.push(VType::Top)?;
        }
        _ => words.push(of.copy(alloc)?)?,
    }
    Ok(())
}

/// The words of these types, one after the other. Only memory can be wanting.
pub fn in_words(alloc: Global, types: &[VType]) -> Result<Vec<VType>, AllocError>
    ensures { IfOk result (λ words. words.items ≡ in_words types.now) }
{
    let mut words = Vec::new(alloc);
    for of in types {
        push_type(&mut words, of)?;
    }
    Ok(words)
}

/// Adds Top at the end until there are so many words. Only memory can be wanting.
fn pad(words: &mut Vec<VType>, max_locals: u16) -> Result<(), AllocError>
    ensures { OnOk result (words.new.items ≡ padded max_locals words.old.items) }
{
    let wanted = usize::from(max_locals).saturating_sub(words.len());
    for _place in 0..wanted {
        words.push(VType::Top)?;
    }
    Ok(())
}

/// Whether a type is that of a receiver that isn't initialised yet.
fn is_uninit_this(of: &VType) -> bool
    ensures { result ≡ is_uninit_this of.now }
{
    matches!(of, VType::UninitThis)
}

/// Whether one of the types is.
fn has_uninit_this(types: &[VType]) -> bool
    ensures { result ≡ has_uninit_this types.now }
{
    types.iter().any(is_uninit_this)
}

/// The frame that has these types of local variables and of stack items, in words (JVMS 4.10.1.4). Only
/// memory can be wanting.
pub fn frame_of(
    alloc: Global,
    max_locals: u16,
    locals: &[VType],
    stack: &[VType],
) -> Result<Frame, AllocError>
    ensures { IfOk result (λ frame. frame ≡ frame_of max_locals locals.now stack.now) }
{
    let mut words = in_words(alloc, locals)?;
    pad(&mut words, max_locals)?;
    Ok(Frame {
        locals: Seq::from_vec(words),
        stack: Seq::from_vec(in_words(alloc, stack)?),
        this_uninit: has_uninit_this(locals),
    })
}
