ghost use Rattle.std.specs.Prelude.{◌≡◌, IfSome, IfNone, None};
ghost use Rattle.jv_insn.specs.Effects.{shuffle_of};
ghost use Rattle.jv_leaving.specs.Words.{IsShuffleOf};

use jv_table::ops;

/// How many words from the top an instruction moves, and those that stand there afterwards, each by its place
/// among them.
#[derive(Clone, Copy, Debug)]
pub struct Shuffling {
    pub count: u8,
    pub order: &'static [u8],
}

/// So many words from the top, and those that stand there afterwards.
fn by_order(count: u8, order: &'static [u8]) -> Shuffling
    ensures count { result.count ≡ count }
    ensures order { result.order.now ≡ order.now }
{
    Shuffling { count, order }
}

/// What an instruction moves: pop, pop2, dup, dup_x1, dup_x2, dup2, dup2_x1, dup2_x2 and swap move words.
pub fn moved(op: u8) -> Option<Shuffling>
    ensures found { IfSome result (IsShuffleOf op) }
    ensures none { IfNone result (shuffle_of op ≡ None) }
{
    static NONE: [u8; 0] = [];
    static DUP: [u8; 2] = [0, 0];
    static DUP_X1: [u8; 3] = [1, 0, 1];
    static DUP_X2: [u8; 4] = [2, 0, 1, 2];
    static DUP2: [u8; 4] = [0, 1, 0, 1];
    static DUP2_X1: [u8; 5] = [1, 2, 0, 1, 2];
    static DUP2_X2: [u8; 6] = [2, 3, 0, 1, 2, 3];
    static SWAP: [u8; 2] = [1, 0];
    match op {
        ops::POP => Some(by_order(1, &NONE)),
        ops::POP2 => Some(by_order(2, &NONE)),
        ops::DUP => Some(by_order(1, &DUP)),
        ops::DUP_X1 => Some(by_order(2, &DUP_X1)),
        ops::DUP_X2 => Some(by_order(3, &DUP_X2)),
        ops::DUP2 => Some(by_order(2, &DUP2)),
        ops::DUP2_X1 => Some(by_order(3, &DUP2_X1)),
        ops::DUP2_X2 => Some(by_order(4, &DUP2_X2)),
        ops::SWAP => Some(by_order(2, &SWAP)),
        _ => None,
    }
}
