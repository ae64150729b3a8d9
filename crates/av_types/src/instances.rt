ghost use Rattle.std.specs.Prelude.{◌≡◌, ◌<◌, ◌↔◌, IsTrue, length, map, Contains};
ghost use Rattle.std.specs.List.Sorted.{IsStrictlyIncreasing};
ghost use Rattle.av_states.specs.declared.run_type.RunType.{Array as ArrayType, Prim as PrimItem};
ghost use Rattle.av_model.specs.RunTypes.{IsInstance, IsOfClass, IsOfNamed};
ghost use Rattle.av_model.specs.States.{IsSoundType};

use av_states::RunType;
use jv_types::{ClassId, Name, Prim, RefType};
use jv_world::{World, is_array_super};

/// Whether a list of classes by rising numbers has this one.
pub fn has_class(classes: &[ClassId], class: ClassId) -> bool
    requires { IsStrictlyIncreasing (map (λ c. c.number) classes.now) }
    ensures { IsTrue result ↔ Contains classes.now class }
{
    classes.binary_search(&class).is_ok()
}

/// Whether an object of the type is an instance of the class or interface. It takes no memory.
pub fn is_of_class(world: &World, t: &RunType, d: ClassId) -> bool
    requires sound { IsSoundType world.now t.now }
    requires here { d.number < length world.now }
    ensures { IsTrue result ↔ IsOfClass world.now t.now d }
{
    match t {
        RunType::Class(c) => world.sub(*c, d),
        RunType::Lib { low, ifs } => world.sub(*low, d) || has_class(ifs.as_slice(), d),
        RunType::Prim(_) => false,
        RunType::Array(_) => is_array_super(&world.shape(d).name),
    }
}

/// Whether an object of the type is an instance of the class or interface of this name. It takes no memory.
pub fn is_of_named(world: &World, t: &RunType, name: &Name) -> bool
    requires { IsSoundType world.now t.now }
    ensures { IsTrue result ↔ IsOfNamed world.now t.now name.now }
{
    match world.class(name) {
        None => false,
        Some(d) => is_of_class(world, t, d),
    }
}

/// The items of an array have a sound type where the array has one. It does nothing.
pub fn items_are_sound(_world: &World, _t: &RunType, _item: &RunType)
    requires sound { IsSoundType _world.now _t.now }
    requires array { _t.now ≡ ArrayType _item.now }
    ensures { IsSoundType _world.now _item.now }
{}

/// Whether the items of an array are of this primitive type.
fn is_prim(item: &RunType, prim: Prim) -> bool
    ensures { IsTrue result ↔ (item.now ≡ PrimItem prim) }
{
    match item {
        RunType::Prim(own) => *own == prim,
        RunType::Class(_) => false,
        RunType::Lib { .. } => false,
        RunType::Array(_) => false,
    }
}

/// Whether an object of the type is an instance of a reference type (JVMS 2.4, 4.10.1.2). It takes no memory.
pub fn is_instance(world: &World, t: &RunType, of: &RefType) -> bool
    requires { IsSoundType world.now t.now }
    ensures { IsTrue result ↔ IsInstance world.now t.now of.now }
{
    match (t, of) {
        (_, RefType::Class(name)) => is_of_named(world, t, name),
        (RunType::Array(item), RefType::PrimArray(prim)) => is_prim(item.get(), *prim),
        (RunType::Array(item), RefType::Array(other)) => {
            let own = item.get();
            items_are_sound(world, t, own);
            is_instance(world, own, other.get())
        }
        (RunType::Class(_), RefType::PrimArray(_)) => false,
        (RunType::Lib { .. }, RefType::PrimArray(_)) => false,
        (RunType::Prim(_), RefType::PrimArray(_)) => false,
        (RunType::Class(_), RefType::Array(_)) => false,
        (RunType::Lib { .. }, RefType::Array(_)) => false,
        (RunType::Prim(_), RefType::Array(_)) => false,
    }
}
