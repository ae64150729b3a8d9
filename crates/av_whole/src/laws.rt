//! The law of whole classes. The function does nothing, and its contract is the law.

ghost use Rattle.std.specs.Prelude.{List, Contains};
ghost use Rattle.jv_types.specs.declared.shapes.Shape.{Shape};
ghost use Rattle.jv_world.specs.Worlds.{HaveDistinctNames, IsWorld};
ghost use Rattle.av_whole.specs.WholeClasses.{HasWholeClasses, IsWholeIn};

use jv_two_worlds::{classes_agree, subtypes_agree, worlds_stand_in};

/// Each class of a world whose classes a list has is whole in that list, if no two classes of the list have one name.
/// So the world of the whole classes has every such world inside.
pub fn worlds_are_whole()
    ensures whole { (shapes w : List Shape) → HaveDistinctNames shapes → IsWorld w → ((s : Shape) → Contains w s → Contains shapes s)
        → (s : Shape) → Contains w s → IsWholeIn shapes s }
    ensures greatest { (shapes w v : List Shape) → HaveDistinctNames shapes → HasWholeClasses shapes v → IsWorld w → ((s : Shape) → Contains w s → Contains shapes s)
        → (s : Shape) → Contains w s → Contains v s }
{
    worlds_stand_in();
    classes_agree();
    subtypes_agree();
}
