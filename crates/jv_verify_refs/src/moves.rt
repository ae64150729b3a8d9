ghost use Rattle.std.specs.Prelude.{◌≡◌, IfOk, Err, IfSome, IfNone, None};
ghost use Rattle.jv_insn.specs.Effects.{shuffle_of};
ghost use Rattle.jv_typing.specs.Typing.{is_top, are_whole, in_order};
ghost use Rattle.jv_typing.specs.declared.no_typing.NoTyping.TheVariants as none;
ghost use Rattle.jv_typing.specs.declared.rules.RefRule.TheVariants as rules;
ghost use Rattle.jv_verify_refs.specs.Steps.Parts.{HasTyping, HasNoTyping, IsShuffleOf};

use crate::frames::with_stack;
use crate::step::Step;
use jv_table::ops;
use jv_types::{Frame, VType};
use jv_typing::{NoTyping, is_wide};
use std::alloc::{AllocError, Global};

/// How many words from the top an instruction moves, and those that stand there afterwards, each by its place
/// among them.
#[derive(Clone, Copy, Debug)]
pub struct Shuffling {
    pub count: u8,
    pub order: &'static [u8],
}

/// So many words from the top, and those that stand there afterwards.
fn by_order(count: u8, order: &'static [u8]) -> Shuffling
    ensures count { result.count ≡ count }
    ensures order { result.order.now ≡ order.now }
{
    Shuffling { count, order }
}

/// What an instruction moves: pop, pop2, dup, dup_x1, dup_x2, dup2, dup2_x1, dup2_x2 and swap move words.
fn moved(op: u8) -> Option<Shuffling>
    ensures found { IfSome result (IsShuffleOf op) }
    ensures none { IfNone result (shuffle_of op ≡ None) }
{
    static NONE: [u8; 0] = [];
    static DUP: [u8; 2] = [0, 0];
    static DUP_X1: [u8; 3] = [1, 0, 1];
    static DUP_X2: [u8; 4] = [2, 0, 1, 2];
    static DUP2: [u8; 4] = [0, 1, 0, 1];
    static DUP2_X1: [u8; 5] = [1, 2, 0, 1, 2];
    static DUP2_X2: [u8; 6] = [2, 3, 0, 1, 2, 3];
    static SWAP: [u8; 2] = [1, 0];
    match op {
        ops::POP => Some(by_order(1, &NONE)),
        ops::POP2 => Some(by_order(2, &NONE)),
        ops::DUP => Some(by_order(1, &DUP)),
        ops::DUP_X1 => Some(by_order(2, &DUP_X1)),
        ops::DUP_X2 => Some(by_order(3, &DUP_X2)),
        ops::DUP2 => Some(by_order(2, &DUP2)),
        ops::DUP2_X1 => Some(by_order(3, &DUP2_X1)),
        ops::DUP2_X2 => Some(by_order(4, &DUP2_X2)),
        ops::SWAP => Some(by_order(2, &SWAP)),
        _ => None,
    }
}

/// Whether nothing is known of a word, or it is the second one of a long or double.
fn is_top(word: &VType) -> bool
    ensures { result ≡ is_top word.now }
{
    matches!(word, VType::Top)
}

/// Whether words are whole values, where the word before is the first of two or isn't.
fn are_whole(second: bool, words: &[VType]) -> bool
    ensures { result ≡ are_whole second words.now }
{
    match words.split_first() {
        None => !second,
        Some((word, rest)) => is_top(word) == second && are_whole(is_wide(word), rest),
    }
}

/// Words at these places of others; Top where there is none.
fn in_order(alloc: Global, order: &[u8], words: &[VType]) -> Result<Vec<VType>, AllocError>
    ensures { IfOk result (λ made. made.items ≡ in_order order.now words.now) }
{
    let mut made = Vec::new(alloc);
    for place in order {
        match words.get(usize::from(*place)) {
            Some(word) => made.push(word.copy(alloc)?)?,
            None => made.push(VType::Top)?,
        }
    }
    Ok(made)
}

/// pop to swap: the words that are moved are whole values, and so are those that stand there afterwards.
pub fn move_words(alloc: Global, step: &Step) -> Result<Frame, NoTyping>
    ensures typed { IfOk result (HasTyping step.now rules.Move) }
    ensures rule { result ≡ Err none.Rule → HasNoTyping step.now rules.Move }
{
    let Some(moved) = moved(step.insn.op) else {
        return Err(NoTyping::Rule);
    };
    let stack = step.frame.stack.as_slice();
    let count = usize::from(moved.count);
    if stack.len() < count {
        return Err(NoTyping::Rule);
    }
    let (below, top) = stack.split_at(stack.len() - count);
    if !are_whole(false, top) {
        return Err(NoTyping::Rule);
    }
    let after = in_order(alloc, moved.order, top)?;
    if !are_whole(false, after.as_slice()) {
        return Err(NoTyping::Rule);
    }
    with_stack(
        alloc,
        step.frame,
        below,
        after.as_slice(),
        step.body.max_stack,
    )
}
