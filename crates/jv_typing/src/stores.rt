ghost use Rattle.std.specs.Prelude.{◌≡◌, ◌++◌, List, IfOk, OnOk, Err, if◌then◌else◌};
ghost use Rattle.jv_types.specs.declared.frames.VType.{VType, Top};
ghost use Rattle.jv_insn.specs.Kinds.{is_wide};
ghost use Rattle.jv_typing.specs.Typing.{halved, AreStored};
ghost use Rattle.jv_typing.specs.declared.no_typing.NoTyping.TheVariants as none;

use crate::no_typing::NoTyping;
use crate::words::{is_wide, push_copies};
use jv_types::{Seq, VType};
use std::alloc::{AllocError, Global};

/// What becomes of the word before a store: Top, where it is the first half of a long or double.
fn word_before(alloc: Global, word: &VType) -> Result<VType, AllocError>
    ensures { IfOk result (λ left. left ≡ (if is_wide word.now then Top else word.now)) }
{
    if is_wide(word) {
        Ok(VType::Top)
    } else {
        word.copy(alloc)
    }
}

/// Puts words at the end that stand before a store: where the last one is the first half of a long or
/// double, it becomes Top.
fn push_halved(alloc: Global, words: &mut Vec<VType>, before: &[VType]) -> Result<(), AllocError>
    ensures { OnOk result (words.new.items ≡ words.old.items ++ halved before.now) }
{
    match before.split_last() {
        None => Ok(()),
        Some((last, rest)) => {
            push_copies(alloc, words, rest)?;
            words.push(word_before(alloc, last)?)?;
            Ok(())
        }
    }
}

/// The local variables after words were stored from one on (JVMS 4.10.1.7). It is refused exactly where they
/// don't fit there.
pub fn stored(
    alloc: Global,
    locals: &[VType],
    local: u16,
    words: &[VType],
) -> Result<Seq<VType>, NoTyping>
    ensures ok { IfOk result (AreStored local words.now locals.now) }
    ensures rule { result ≡ Err none.Rule → (after : List VType) → AreStored local words.now locals.now after → ⊥ }
{
    let local = usize::from(local);
    if locals.len() < local + words.len() {
        return Err(NoTyping::Rule);
    }
    let (before, rest) = locals.split_at(local);
    let (_, behind) = rest.split_at(words.len());
    let mut after = Vec::with_capacity(alloc, locals.len())?;
    push_halved(alloc, &mut after, before)?;
    push_copies(alloc, &mut after, words)?;
    push_copies(alloc, &mut after, behind)?;
    Ok(Seq::from_vec(after))
}

/// A copy of words. Only memory can be wanting.
pub fn copied(alloc: Global, words: &[VType]) -> Result<Seq<VType>, AllocError>
    ensures { IfOk result (λ copies. copies ≡ words.now) }
{
    let mut copies = Vec::with_capacity(alloc, words.len())?;
    push_copies(alloc, &mut copies, words)?;
    Ok(Seq::from_vec(copies))
}
