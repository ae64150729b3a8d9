ghost use Rattle.std.specs.Prelude.{ℕ, List, Contains};
ghost use Rattle.jv_types.specs.declared.shapes.Shape.{Shape};
ghost use Rattle.jv_world.specs.Worlds.{IsWorld};
ghost use Rattle.av_standin_of.specs.Classes.{MadeClass};
ghost use Rattle.av_standin_of.specs.Worlds.{standin_world};
ghost use Rattle.av_new_world.specs.Conditions.{HasMethodsThere, MayMakeWorld};

/// The classes of an application and those of the stand-in for what it can meet make a world (JVMS 5.3.5). This does
/// nothing, and its contract is the law.
pub fn standins_make_a_world()
    ensures { (w : List Shape) (dims : ℕ) (classes : List MadeClass) → IsWorld w → MayMakeWorld w dims classes → IsWorld (standin_world w classes) }
{}

/// The methods of each class of a stand-in are those of a class of the stand-in's world, and no two of that class have one
/// name and descriptor (JVMS 4.6). This does nothing, and its contract is the law.
pub fn standin_methods_are_there()
    ensures { (w : List Shape) (dims : ℕ) (classes : List MadeClass) (made : MadeClass) → MayMakeWorld w dims classes → Contains classes made → HasMethodsThere (standin_world w classes) made }
{}
