//! A law of the names of a stand-in's classes. The function does nothing, and its contract is the law.

ghost use Rattle.std.specs.Prelude.{◌≡◌, ℕ, List};
ghost use Rattle.jv_types.specs.declared.shapes.Shape.{Shape};
ghost use Rattle.jv_world.specs.Worlds.{IsWorld};
ghost use Rattle.av_standin_of.specs.Classes.{IsStandinClass, MadeClass};
ghost use Rattle.av_sketches.specs.Conditions.{CanStandIn};

use crate::kinds::{any_classes_have_one, collected_classes_have_one, parts_have_one};

/// Classes of a stand-in that have one name are one class.
pub fn standin_classes_have_one_name()
    ensures { (w : List Shape) (dims : ℕ) (a b : MadeClass) → IsWorld w → CanStandIn w dims
        → IsStandinClass w dims a → IsStandinClass w dims b → a.name ≡ b.name → a ≡ b }
{
    collected_classes_have_one();
    any_classes_have_one();
    parts_have_one();
}
