ghost use Rattle.std.specs.Prelude.{◌≡◌, IfOk, OnOk};
ghost use Rattle.jv_frames.specs.Types.{is_uninit_this, has_uninit_this, padded, frame_of};

use jv_frames::in_words;
use jv_types::{Frame, Seq, VType};
use std::alloc::{AllocError, Global};

/// Adds Top at the end until there are so many words. Only memory can be wanting.
fn pad(words: &mut Vec<VType>, max_locals: u16) -> Result<(), AllocError>
    ensures { OnOk result (words.new.items ≡ padded max_locals words.old.items) }
{
    let wanted = usize::from(max_locals).saturating_sub(words.len());
    for _place in 0..wanted {
        words.push(VType::Top)?;
    }
    Ok(())
}

/// Whether a type is that of a receiver that isn't initialised yet.
fn is_uninit_this(of: &VType) -> bool
    ensures { result ≡ is_uninit_this of.now }
{
    matches!(of, VType::UninitThis)
}

/// Whether one of the types is.
fn has_uninit_this(types: &[VType]) -> bool
    ensures { result ≡ has_uninit_this types.now }
{
    types.iter().any(is_uninit_this)
}

/// The frame that has these types of local variables and of stack items, in words (JVMS 4.10.1.4). Only memory can be
/// wanting.
pub fn frame_of(
    alloc: Global,
    max_locals: u16,
    locals: &[VType],
    stack: &[VType],
) -> Result<Frame, AllocError>
    ensures { IfOk result (λ frame. frame ≡ frame_of max_locals locals.now stack.now) }
{
    let mut words = in_words(alloc, locals)?;
    pad(&mut words, max_locals)?;
    Ok(Frame {
        locals: Seq::from_vec(words),
        stack: Seq::from_vec(in_words(alloc, stack)?),
        this_uninit: has_uninit_this(locals),
    })
}
