ghost use Rattle.std.specs.Prelude.{◌↔◌, IsTrue};
ghost use Rattle.av_conditions.specs.RightReferences.{IsMakeable, IsMakeableType, IsRightType, IsTypeThere};

use jv_resolve::is_abstract;
use jv_table::ops;
use jv_types::{RefType, Shape};
use jv_world::{World, is_interface};

/// Whether the class or interface inside a type is one of the world.
pub fn is_type_there(world: &World, type_of: &RefType) -> bool
    ensures { IsTrue result ↔ IsTypeThere world.now type_of.now }
{
    match type_of {
        RefType::Class(name) => match world.class(name) {
            None => false,
            Some(_) => true,
        },
        RefType::PrimArray(_) => true,
        RefType::Array(item) => is_type_there(world, item.get()),
    }
}

/// Whether `new` may make an object of a class: it is neither an interface nor abstract.
fn is_makeable(shape: &Shape) -> bool
    ensures { IsTrue result ↔ IsMakeable shape.now }
{
    !is_interface(shape) && !is_abstract(shape.flags)
}

/// Whether the type is a class of the world of which `new` may make an object.
fn is_makeable_type(world: &World, type_of: &RefType) -> bool
    ensures { IsTrue result ↔ IsMakeableType world.now type_of.now }
{
    let RefType::Class(name) = type_of else {
        return false;
    };
    match world.class(name) {
        None => false,
        Some(c) => is_makeable(world.shape(c)),
    }
}

/// Whether the type of an instruction is there, and may be made where the instruction is a `new`.
pub fn is_right_type(world: &World, op: u8, type_of: &RefType) -> bool
    ensures { IsTrue result ↔ IsRightType world.now op type_of.now }
{
    if !is_type_there(world, type_of) {
        return false;
    }
    if op == ops::NEW {
        return is_makeable_type(world, type_of);
    }
    true
}
