//! Laws of when one world stands in another. Each function does nothing, and its contract is the law.

ghost use Rattle.std.specs.Prelude.{ℕ, ◌++◌, List, Contains};
ghost use Rattle.jv_types.specs.declared.shapes.Shape.{Shape};
ghost use Rattle.jv_world.specs.Worlds.{HaveDistinctNames, IsWorld};
ghost use Rattle.jv_two_worlds.specs.Renumbering.{StandsIn};
ghost use Rattle.jv_two_worlds.specs.SameClasses.{IsSameClass};

/// A world stands in each list of shapes that begins with its classes, and in each that has them in any order, where
/// no two classes there have one name; and it stands in what the other world stands in.
pub fn worlds_stand_in()
    ensures longer { (w more : List Shape) → IsWorld w → HaveDistinctNames (w ++ more) → StandsIn w (w ++ more) (λ c. c) }
    ensures in_any_order { (w v : List Shape) → IsWorld w → HaveDistinctNames v → ((shape : Shape) → Contains w shape → (other : Shape) × Contains v other × IsSameClass shape other)
        → (to : ℕ → ℕ) × StandsIn w v to }
    ensures onward { (w v u : List Shape) (to on : ℕ → ℕ) → StandsIn w v to → StandsIn v u on → StandsIn w u (λ c. on (to c)) }
{}
