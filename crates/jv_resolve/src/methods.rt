ghost use Rattle.std.specs.Prelude.{◌≡◌, ℕ, ◌<◌, ◌↔◌, length, IsTrue, IfOk, IfErr, IfSome, IfNone, OnSome};
ghost use Rattle.jv_types.specs.declared.ids.MethodId.{MethodId};
ghost use Rattle.jv_world.specs.Worlds.{IsNamed, IsWorld};
ghost use Rattle.jv_resolve.specs.Members.{DeclaresMethod, init_name};
ghost use Rattle.jv_resolve.specs.References.{BeginsAt, IsInterfaceType};
ghost use Rattle.jv_resolve.specs.Resolving.{DeclaresIn, IsInitKept, ResolvesInClass, ResolvesInInterface, ResolvesMethod, ResolvesInterfaceMethod};
ghost use Rattle.jv_resolve.specs.Access.{IsMethodAccessible};
ghost use Rattle.jv_resolve.specs.Refusals.{HasMethodCause, HasInterfaceMethodCause, IsMethodUnresolved, IsInterfaceMethodUnresolved};

use crate::access::is_method_accessible;
use crate::class_methods::{class_method, method_of_interface};
use crate::members::declared_method;
use crate::references::{is_array, is_init, names_interface, start_of};
use crate::refusal::ResolveRefusal;
use jv_types::{ClassId, MethodId, MethodRef};
use jv_world::World;
use std::alloc::{AllocError, Global};

/// The instance initialization method that the class which the reference names declares itself.
fn own_init(world: &World, start: ClassId, r: &MethodRef) -> Option<MethodId>
    requires here { start.number < length world.now }
    requires begins { BeginsAt world.now r.now.class start.number }
    ensures found { IfSome result (λ m. DeclaresIn world.now start.number r.now.name r.now.desc m × IsInitKept world.now r.now m) }
    ensures none { IfNone result (r.now.name ≡ init_name → (m : MethodId) → DeclaresMethod world.now r.now.name r.now.desc m → ¬ IsInitKept world.now r.now m) }
{
    if is_array(&r.class) {
        return None;
    }
    declared_method(world, start, &r.name, &r.desc)
}

/// What a reference finds from a class or array.
fn found_in_class(
    alloc: Global,
    world: &World,
    start: ClassId,
    r: &MethodRef,
) -> Result<Option<MethodId>, AllocError>
    requires here { start.number < length world.now }
    requires begins { BeginsAt world.now r.now.class start.number }
    ensures found { IfOk result (λ o. IfSome o (λ m. ResolvesInClass world.now start.number r.now.name r.now.desc m × IsInitKept world.now r.now m)) }
    ensures none { IfOk result (λ o. IfNone o ((m : MethodId) → ResolvesInClass world.now start.number r.now.name r.now.desc m → ¬ IsInitKept world.now r.now m)) }
{
    if is_init(&r.name) {
        return Ok(own_init(world, start, r));
    }
    class_method(alloc, world, start, &r.name, &r.desc)
}

/// What a reference finds from an interface.
fn found_in_interface(
    alloc: Global,
    world: &World,
    start: ClassId,
    r: &MethodRef,
) -> Result<Option<MethodId>, AllocError>
    requires here { start.number < length world.now }
    requires begins { BeginsAt world.now r.now.class start.number }
    ensures found { IfOk result (λ o. IfSome o (λ m. ResolvesInInterface world.now start.number r.now.name r.now.desc m × IsInitKept world.now r.now m)) }
    ensures none { IfOk result (λ o. IfNone o ((m : MethodId) → ResolvesInInterface world.now start.number r.now.name r.now.desc m → ¬ IsInitKept world.now r.now m)) }
{
    if is_init(&r.name) {
        return Ok(own_init(world, start, r));
    }
    method_of_interface(alloc, world, start, &r.name, &r.desc)
}

/// Resolves a reference to a method of a class or an array by the world and the reference alone (JVMS
/// 5.4.3.3): in the class and its superclasses, or else among its superinterfaces. For an array it looks in
/// Object. A method `<init>` is found only where the named class declares it. `WrongKind` is exactly where the
/// reference names an interface, else `NotFound` exactly where nothing is found, `NoAccess` never.
pub fn resolve_method(
    alloc: Global,
    world: &World,
    r: &MethodRef,
) -> Result<MethodId, ResolveRefusal>
    ensures resolved { IfOk result (ResolvesMethod world.now r.now) }
    ensures refused { IfErr result (IsMethodUnresolved world.now r.now) }
{
    if names_interface(world, &r.class) {
        return Err(ResolveRefusal::WrongKind);
    }
    let Some(start) = start_of(alloc, world, &r.class)? else {
        return Err(ResolveRefusal::NotFound);
    };
    let Some(m) = found_in_class(alloc, world, start, r)? else {
        return Err(ResolveRefusal::NotFound);
    };
    Ok(m)
}

/// Resolves a reference to a method of a class or an array, as the class `from` has it: as `resolve_method`
/// does, and then refused where the method isn't accessible from the class `from` (JVMS 5.4.4).
pub fn method(
    alloc: Global,
    world: &World,
    from: ClassId,
    r: &MethodRef,
) -> Result<MethodId, ResolveRefusal>
    requires { from.number < length world.now }
    ensures resolved { IfOk result (ResolvesMethod world.now r.now) }
    ensures accessible { IfOk result (IsMethodAccessible world.now from.number r.now) }
    ensures refused { IfErr result (HasMethodCause world.now from.number r.now) }
{
    let m = resolve_method(alloc, world, r)?;
    if !is_method_accessible(world, from, r, m) {
        return Err(ResolveRefusal::NoAccess);
    }
    Ok(m)
}

/// Resolves a reference to a method of an interface by the world and the reference alone (JVMS 5.4.3.4): in
/// the interface, or else among Object's public instance methods, or else among its superinterfaces.
/// `WrongKind` is exactly where the reference names no interface of the world, else `NotFound` exactly where
/// nothing is found, `NoAccess` never.
pub fn resolve_interface_method(
    alloc: Global,
    world: &World,
    r: &MethodRef,
) -> Result<MethodId, ResolveRefusal>
    ensures resolved { IfOk result (ResolvesInterfaceMethod world.now r.now) }
    ensures refused { IfErr result (IsInterfaceMethodUnresolved world.now r.now) }
{
    if !names_interface(world, &r.class) {
        return Err(ResolveRefusal::WrongKind);
    }
    let Some(start) = start_of(alloc, world, &r.class)? else {
        return Err(ResolveRefusal::NotFound);
    };
    let Some(m) = found_in_interface(alloc, world, start, r)? else {
        return Err(ResolveRefusal::NotFound);
    };
    Ok(m)
}

/// Resolves a reference to a method of an interface, as the class `from` has it: as
/// `resolve_interface_method` does, and then refused where the method isn't accessible from the class `from`
/// (JVMS 5.4.4).
pub fn interface_method(
    alloc: Global,
    world: &World,
    from: ClassId,
    r: &MethodRef,
) -> Result<MethodId, ResolveRefusal>
    requires { from.number < length world.now }
    ensures resolved { IfOk result (ResolvesInterfaceMethod world.now r.now) }
    ensures accessible { IfOk result (IsMethodAccessible world.now from.number r.now) }
    ensures refused { IfErr result (HasInterfaceMethodCause world.now from.number r.now) }
{
    let m = resolve_interface_method(alloc, world, r)?;
    if !is_method_accessible(world, from, r, m) {
        return Err(ResolveRefusal::NoAccess);
    }
    Ok(m)
}
