//! Laws of the definitions. Each function does nothing, and its contract is the law.

ghost use Rattle.std.specs.Prelude.{◌≡◌, Bool, List, IsTrue, Contains};
ghost use Rattle.jv_types.specs.declared.fact.Fact.{Fact};
ghost use Rattle.jv_types.specs.declared.ids.FieldId.{FieldId};
ghost use Rattle.jv_fix.specs.Facts.{IsLeast};
ghost use Rattle.av_rules.specs.Closing.{AreSeeds, Closed, Has, Least};
ghost use Rattle.av_rules.specs.Forcing.{Forces};
ghost use Rattle.av_rules.specs.Program.{Program};
ghost use Rattle.av_rules.specs.StandInClasses.{IsKnownField};
ghost use Rattle.av_rules.specs.Summary.{Uncaught};

/// What two closed sets have both is closed.
pub fn closed_sets_meet()
    ensures { (p : Program) (one other : Fact → Bool) → Closed p (Has one) → Closed p (Has other) → Closed p (λ fact. Has one fact × Has other fact) }
{}

/// The worklist's least set over the facts that hold without a premise is the least closed set.
pub fn worklist_sets_are_least()
    ensures { (p : Program) (seeds facts : List Fact) → AreSeeds p seeds → IsLeast (Forces p) seeds facts → Least p facts }
{}

/// There is one least closed set.
pub fn least_facts_are_one()
    ensures { (p : Program) (facts others : List Fact) → Least p facts → Least p others → (fact : Fact) → Contains facts fact → Contains others fact }
{}

/// A closed set meets the condition on what leaves main and the initialisers: the library knows it.
pub fn closed_sets_know_the_uncaught()
    ensures { (p : Program) (set : Fact → Bool) (f : FieldId) → IsKnownField p.world f → Closed p (Has set) → Uncaught p (Has set) }
{}
