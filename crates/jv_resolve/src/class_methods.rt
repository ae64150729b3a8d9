ghost use Rattle.std.specs.Prelude.{◌≡◌, ℕ, ◌<◌, ◌↔◌, length, IsTrue, IfOk, IfSome, IfNone};
ghost use Rattle.jv_types.specs.declared.ids.MethodId.{MethodId};
ghost use Rattle.jv_world.specs.Worlds.{IsNamed, object_name};
ghost use Rattle.jv_resolve.specs.Members.{DeclaresMethod, HasMethod};
ghost use Rattle.jv_resolve.specs.Resolving.{IsPublicInstance, IsObjectMethod, ResolvesInClass, ResolvesInInterface};

use crate::above::method_above;
use crate::flags::{is_public, is_static};
use crate::members::{declared_method, method_shape};
use crate::nearest::{Wanted, nearest};
use jv_types::{ClassId, MethodDesc, MethodId, Name};
use jv_world::World;
use std::alloc::{AllocError, Global};

/// Whether a method is a public instance method.
fn is_public_instance(world: &World, m: MethodId) -> bool
    requires { HasMethod world.now m }
    ensures { IsTrue result ↔ IsPublicInstance world.now m }
{
    let flags = method_shape(world, m).flags;
    is_public(flags) && !is_static(flags)
}

/// The class Object, if the world has it.
pub fn object_class(alloc: Global, world: &World) -> Result<Option<ClassId>, AllocError>
    ensures found { IfOk result (λ o. IfSome o (λ c. IsNamed world.now c.number object_name)) }
    ensures one { IfOk result (λ o. IfSome o (λ c. (d : ℕ) → IsNamed world.now d object_name → d ≡ c.number)) }
    ensures none { IfOk result (λ o. IfNone o ((c : ℕ) → ¬ IsNamed world.now c object_name)) }
{
    let name = Name::from_slice(alloc, b"java/lang/Object")?;
    Ok(world.class(&name))
}

/// The public instance method with the name and descriptor that Object declares.
pub fn object_method(
    alloc: Global,
    world: &World,
    name: &Name,
    desc: &MethodDesc,
) -> Result<Option<MethodId>, AllocError>
    ensures found { IfOk result (λ o. IfSome o (IsObjectMethod world.now name.now desc.now)) }
    ensures none { IfOk result (λ o. IfNone o ((m : MethodId) → ¬ IsObjectMethod world.now name.now desc.now m)) }
{
    let Some(object) = object_class(alloc, world)? else {
        return Ok(None);
    };
    let Some(m) = declared_method(world, object, name, desc) else {
        return Ok(None);
    };
    if is_public_instance(world, m) {
        return Ok(Some(m));
    }
    Ok(None)
}

/// The method that a search from a class finds (JVMS 5.4.3.3): in the class and its superclasses, or else
/// among the superinterfaces.
pub fn class_method(
    alloc: Global,
    world: &World,
    c: ClassId,
    name: &Name,
    desc: &MethodDesc,
) -> Result<Option<MethodId>, AllocError>
    requires { c.number < length world.now }
    ensures found { IfOk result (λ o. IfSome o (ResolvesInClass world.now c.number name.now desc.now)) }
    ensures none { IfOk result (λ o. IfNone o ((m : MethodId) → ¬ ResolvesInClass world.now c.number name.now desc.now m)) }
{
    if let Some(m) = nearest(world, c, name, desc, Wanted::Declared) {
        return Ok(Some(m));
    }
    method_above(alloc, world, c, name, desc)
}

/// The method that a search from an interface finds (JVMS 5.4.3.4): in the interface, or else among Object's
/// public instance methods, or else among the superinterfaces.
pub fn method_of_interface(
    alloc: Global,
    world: &World,
    c: ClassId,
    name: &Name,
    desc: &MethodDesc,
) -> Result<Option<MethodId>, AllocError>
    requires { c.number < length world.now }
    ensures found { IfOk result (λ o. IfSome o (ResolvesInInterface world.now c.number name.now desc.now)) }
    ensures none { IfOk result (λ o. IfNone o ((m : MethodId) → ¬ ResolvesInInterface world.now c.number name.now desc.now m)) }
{
    if let Some(m) = declared_method(world, c, name, desc) {
        return Ok(Some(m));
    }
    if let Some(m) = object_method(alloc, world, name, desc)? {
        return Ok(Some(m));
    }
    method_above(alloc, world, c, name, desc)
}
