//! Laws of where words are left. Each function does nothing, and its contract is the law.

ghost use Rattle.std.specs.Prelude.{◌≡◌, ◌<◌, ◌≤◌, ◌+◌, ◌-◌, ℕ, IsTrue, Some, None, true, false, length, slice_get};
ghost use Rattle.jv_types.specs.declared.instruction.Insn.{Insn};
ghost use Rattle.jv_insn.specs.Effects.{Shuffle, effect_of, shuffle_of, is_load, is_store, local_of, width_of};
ghost use Rattle.jv_insn.specs.Forms.{HasOwnOperands};
ghost use Rattle.jv_insn.specs.Leaving.{Place, AtLocal, AtStack, Words, word_at, words_below, is_written, source_of, Leaves, StandsAfter};
ghost use Rattle.jv_insn.specs.Kinds.{WordKind, kind_given, kinds_left};

/// Where words are left, by the instructions: below those that an instruction takes, in local variables that
/// it doesn't write, by the nine that move words, by loads, and by stores. All other words are given anew.
pub fn words_are_left()
    ensures below { (insn : Insn) (depth place : ℕ) → place < words_below insn depth
        → Leaves insn depth (AtStack place) (AtStack place) }
    ensures stays { (insn : Insn) (depth local : ℕ) → is_written insn local ≡ false
        → Leaves insn depth (AtLocal local) (AtLocal local) }
    ensures moved { (insn : Insn) (depth from to : ℕ) (shuffle : Shuffle) → shuffle_of insn.op ≡ Some shuffle
        → slice_get shuffle.order to ≡ Some from
        → Leaves insn depth (AtStack (words_below insn depth + from)) (AtStack (words_below insn depth + to)) }
    ensures loaded { (insn : Insn) (depth n : ℕ) → HasOwnOperands insn → IsTrue (is_load insn.op)
        → n < width_of (effect_of insn).gives
        → Leaves insn depth (AtLocal (local_of insn.op insn.arg + n)) (AtStack (depth + n)) }
    ensures stored { (insn : Insn) (depth n : ℕ) → HasOwnOperands insn → IsTrue (is_store insn.op)
        → n < width_of (effect_of insn).takes
        → Leaves insn depth (AtStack ((depth - width_of (effect_of insn).takes) + n)) (AtLocal (local_of insn.op insn.arg + n)) }
    ensures given { (insn : Insn) (depth place : ℕ) → is_load insn.op ≡ false → shuffle_of insn.op ≡ None
        → words_below insn depth ≤ place → source_of insn depth (AtStack place) ≡ None }
{}

/// The kinds of words after an instruction: a word that is left keeps its kind, and one that is given anew
/// has that of its cell.
pub fn kinds_are_kept()
    ensures left { (insn : Insn) (words : Words WordKind) (from to : Place) (kind : WordKind)
        → Leaves insn (length words.stack) from to → StandsAfter insn words to → word_at words from ≡ Some kind
        → word_at (kinds_left insn words) to ≡ Some kind }
    ensures given { (insn : Insn) (words : Words WordKind) (to : Place)
        → source_of insn (length words.stack) to ≡ None → StandsAfter insn words to
        → word_at (kinds_left insn words) to ≡ Some (kind_given insn (length words.stack) to) }
{}
