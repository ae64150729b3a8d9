ghost use Rattle.std.specs.Prelude.{◌≡◌, ℕ, ◌↔◌, codes, IsTrue, IfOk, IfSome, IfNone};
ghost use Rattle.std.specs.Option.{option_copied};
ghost use Rattle.jv_resolve.specs.Members.{init_name};
ghost use Rattle.jv_resolve.specs.References.{named_class, IsArray, BeginsAt, IsInterfaceType};

use crate::class_methods::object_class;
use crate::superinterfaces::is_interface_class;
use jv_types::{ClassId, Name, RefType};
use jv_world::World;
use std::alloc::{AllocError, Global};

/// The name of the class, where the type is no array.
pub fn named_class(type_of: &RefType) -> Option<&Name>
    ensures { option_copied result ≡ named_class type_of.now }
{
    match type_of {
        RefType::Class(name) => Some(name),
        RefType::PrimArray(_) => None,
        RefType::Array(_) => None,
    }
}

/// Whether the type is an array.
pub fn is_array(type_of: &RefType) -> bool
    ensures { IsTrue result ↔ IsArray type_of.now }
{
    named_class(type_of).is_none()
}

/// Whether the type is an interface of the world.
pub fn names_interface(world: &World, type_of: &RefType) -> bool
    ensures { IsTrue result ↔ IsInterfaceType world.now type_of.now }
{
    let Some(name) = named_class(type_of) else {
        return false;
    };
    match world.class(name) {
        None => false,
        Some(c) => is_interface_class(world, c),
    }
}

/// The class at which the search for a method of the type begins: Object for an array.
pub fn start_of(
    alloc: Global,
    world: &World,
    type_of: &RefType,
) -> Result<Option<ClassId>, AllocError>
    ensures found { IfOk result (λ o. IfSome o (λ c. BeginsAt world.now type_of.now c.number)) }
    ensures one { IfOk result (λ o. IfSome o (λ c. (d : ℕ) → BeginsAt world.now type_of.now d → d ≡ c.number)) }
    ensures none { IfOk result (λ o. IfNone o ((c : ℕ) → ¬ BeginsAt world.now type_of.now c)) }
{
    match named_class(type_of) {
        None => object_class(alloc, world),
        Some(name) => Ok(world.class(name)),
    }
}

/// Whether the name is that of instance initialization methods (JVMS 2.9).
pub fn is_init(name: &Name) -> bool
    ensures { IsTrue result ↔ (name.now ≡ init_name) }
{
    name.as_slice() == b"<init>".as_slice()
}

/// Whether the name is that of the method by which an array is copied (JVMS 10.7).
pub fn is_clone(name: &Name) -> bool
    ensures { IsTrue result ↔ (name.now ≡ codes "clone") }
{
    name.as_slice() == b"clone".as_slice()
}
