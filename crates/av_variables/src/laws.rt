//! Laws of the definitions. Each function does nothing, and its contract is the law.

ghost use Rattle.std.specs.Prelude.{◌≡◌, ℕ, Bool, List};
ghost use Rattle.jv_fix.specs.Facts.{Premises, One, IsLeast};
ghost use Rattle.jv_types.specs.declared.fact.Fact.{Fact};
ghost use Rattle.jv_types.specs.declared.fact.Fact.TheVariants as facts;
ghost use Rattle.jv_types.specs.declared.label.Label.{Label};
ghost use Rattle.jv_types.specs.declared.place.Place.{Place};
ghost use Rattle.av_rules.specs.Closing.{Closed, Least};
ghost use Rattle.av_rules.specs.Forcing.{Forces};
ghost use Rattle.av_rules.specs.Program.{IsAnalysable, Program};
ghost use Rattle.av_variables.specs.Packing.{AreExpanded, Expanded, HasPacked, PackClosed, Packed, PackLeast};
ghost use Rattle.av_variables.specs.Pairs.{ArePairs, ArePairSeeds, AreUnpaired, PairForces};
ghost use Rattle.av_variables.specs.Variables.{AreJoined, AreVariables};

/// What comes to a place that is joined from another comes from there alone: none of the rules but that of moves
/// leads into straight code.
pub fn moved_into_variables()
    ensures { (p : Program) (from to : Place) (label : Label) (premises : Premises Fact) → IsAnalysable p → AreJoined p from to
        → Forces p premises (facts.Pt to label) → premises ≡ One (facts.Pt from label) }
{}

/// A closed set of packed facts stands for a closed set of facts.
pub fn packed_sets_are_closed()
    ensures { (p : Program) (number : Place → ℕ) (set : Packed → Bool) → PackClosed p number (HasPacked set) → Closed p (Expanded number (HasPacked set)) }
{}

/// The least packed facts stand for the least facts.
pub fn packed_sets_expand()
    ensures { (p : Program) (number : Place → ℕ) (first : ℕ → Place) (packs : List Packed) (facts : List Fact) → IsAnalysable p → AreVariables p number first
        → PackLeast p number packs → AreExpanded number packs facts → Least p facts }
{}

/// The least pairs of a row and a column, by which packed facts are kept, stand for the least packed facts.
pub fn pairs_stand_for_packed_facts()
    ensures { (p : Program) (number : Place → ℕ) (paired : Packed → Bool) (pair : Packed → ℕ × ℕ) (fact : ℕ × ℕ → Packed) (seeds pairs : List (ℕ × ℕ)) (packs : List Packed)
        → ArePairs p number paired pair fact → ArePairSeeds p number pair seeds → IsLeast (PairForces p number paired pair) seeds pairs
        → AreUnpaired paired pair pairs packs → PackLeast p number packs }
{}
