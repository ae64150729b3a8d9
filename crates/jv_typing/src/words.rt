ghost use Rattle.std.specs.Prelude.{◌≡◌, ◌++◌, OnOk, IfOk};
ghost use Rattle.jv_insn.specs.Kinds.{is_wide, is_reference};

use jv_types::VType;
use std::alloc::{AllocError, Global};

/// Whether a second word follows a word of this type.
pub fn is_wide(word: &VType) -> bool
    ensures { result ≡ is_wide word.now }
{
    matches!(word, VType::Long | VType::Double)
}

/// Whether a word is a reference, initialised or not.
pub fn is_reference(word: &VType) -> bool
    ensures { result ≡ is_reference word.now }
{
    match word {
        VType::Top | VType::Integer | VType::Float | VType::Long | VType::Double => false,
        VType::Null
        | VType::UninitThis
        | VType::Uninit(_)
        | VType::Class(_)
        | VType::PrimArray(_)
        | VType::Array(_) => true,
    }
}

/// Puts copies of words at the end.
pub fn push_copies(alloc: Global, words: &mut Vec<VType>, more: &[VType]) -> Result<(), AllocError>
    ensures { OnOk result (words.new.items ≡ words.old.items ++ more.now) }
{
    for word in more {
        words.push(word.copy(alloc)?)?;
    }
    Ok(())
}
