ghost use Rattle.std.specs.Prelude.{◌↔◌, IsTrue, map, Contains};
ghost use Rattle.std.specs.List.Sorted.{IsStrictlyIncreasing};
ghost use Rattle.jv_types.specs.declared.ids.ClassId.{ClassId as Class};
ghost use Rattle.av_model.specs.RunTypes.{Fits};
ghost use Rattle.av_model.specs.States.{IsSoundType};

use crate::instances::{has_class, is_of_class, items_are_sound};
use av_states::RunType;
use jv_types::ClassId;
use jv_world::World;

/// Whether a list of classes by rising numbers has all of these.
fn has_all(classes: &[ClassId], wanted: &[ClassId]) -> bool
    requires { IsStrictlyIncreasing (map (λ c. c.number) classes.now) }
    ensures { IsTrue result ↔ ((d : Class) → Contains wanted.now d → Contains classes.now d) }
{
    for class in wanted {
        if !has_class(classes, *class) {
            return false;
        }
    }
    true
}

/// Whether an array with such items takes an object of the type (JVMS 6.5, aastore). It takes no memory.
pub fn fits(world: &World, t: &RunType, item: &RunType) -> bool
    requires sound { IsSoundType world.now t.now }
    requires item_sound { IsSoundType world.now item.now }
    ensures { IsTrue result ↔ Fits world.now t.now item.now }
{
    match (t, item) {
        (_, RunType::Class(c)) => is_of_class(world, t, *c),
        (
            RunType::Lib { low, ifs },
            RunType::Lib {
                low: item_low,
                ifs: item_ifs,
            },
        ) => world.sub(*low, *item_low) && has_all(ifs.as_slice(), item_ifs.as_slice()),
        (RunType::Prim(own), RunType::Prim(prim)) => own == prim,
        (RunType::Array(own_item), RunType::Array(inner_item)) => {
            let own = own_item.get();
            let inner = inner_item.get();
            items_are_sound(world, t, own);
            items_are_sound(world, item, inner);
            fits(world, own, inner)
        }
        (RunType::Class(_), RunType::Lib { .. }) => false,
        (RunType::Prim(_), RunType::Lib { .. }) => false,
        (RunType::Array(_), RunType::Lib { .. }) => false,
        (RunType::Class(_), RunType::Prim(_)) => false,
        (RunType::Lib { .. }, RunType::Prim(_)) => false,
        (RunType::Array(_), RunType::Prim(_)) => false,
        (RunType::Class(_), RunType::Array(_)) => false,
        (RunType::Lib { .. }, RunType::Array(_)) => false,
        (RunType::Prim(_), RunType::Array(_)) => false,
    }
}
