ghost use Rattle.std.specs.Prelude.{◌≡◌, ◌<◌, ◌↔◌, length, Some, IsTrue};
ghost use Rattle.std.specs.Option.{option_copied};
ghost use Rattle.av_hierarchy.specs.Hierarchy.{HaveDistinctMethods, OverridesFinal};
ghost use Rattle.av_hierarchy.specs.Steps.Finals.{lesser_name, IsLeastOf, OverridesFinalAt};

use crate::finals::has_overriding;
use jv_types::{ClassId, Name};
use jv_world::World;

/// The lesser of the best name so far and this one.
fn lesser<'a>(best: Option<&'a Name>, name: &'a Name) -> &'a Name
    ensures { Some result.now ≡ lesser_name (option_copied best.entry) name.now }
{
    match best {
        None => name,
        Some(other) => { if other.cmp(name).is_gt() { name } else { other } }
    }
}

/// Whether a class of the application has a method that overrides a final one.
fn is_over_final(world: &World, c: ClassId) -> bool
    requires here { c.number < length world.now }
    requires distinct { HaveDistinctMethods world.now }
    ensures { IsTrue result ↔ OverridesFinalAt world.now c.number }
{
    world.shape(c).application && has_overriding(world, c)
}

/// The least name of a class of the application with a method that overrides a final one other than itself.
pub fn least_over_final(world: &World) -> Option<&Name>
    requires { HaveDistinctMethods world.now }
    ensures { IsLeastOf (OverridesFinal world.now) (option_copied result) }
{
    let mut best = None;
    for place in 0..world.shapes().len() {
        let c = ClassId {
            number: place as u32,
        };
        if is_over_final(world, c) {
            best = Some(lesser(best, &world.shape(c).name));
        }
    }
    best
}
