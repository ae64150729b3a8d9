ghost use Rattle.std.specs.Prelude.{◌≡◌, ◌<◌, ◌↔◌, length, IsTrue, IfOk, IfSome, IfNone, Contains};
ghost use Rattle.jv_types.specs.declared.ids.MethodId.{MethodId};
ghost use Rattle.jv_world.specs.Worlds.{ProperSub};
ghost use Rattle.jv_resolve.specs.Members.{HasMethod, IsConcrete, IsInterfaceClass};
ghost use Rattle.jv_resolve.specs.Inheriting.{IsInterfaceMethod, IsSuperinterfaceMethod};
ghost use Rattle.jv_resolve.specs.Steps.Among.{AreSuperinterfaceMethods, AreHere, IsSpecificAmong, IsDefaultAmong, IsSingleAmong};

use crate::flags::{is_abstract, is_interface};
use crate::members::method_shape;
use crate::nearest::{Wanted, wanted_method};
use jv_types::{ClassId, MethodDesc, MethodId, Name};
use jv_world::World;
use std::alloc::{AllocError, Global};

/// Whether a class is an interface.
pub fn is_interface_class(world: &World, c: ClassId) -> bool
    requires { c.number < length world.now }
    ensures { IsTrue result ↔ IsInterfaceClass world.now c.number }
{
    is_interface(world.shape(c))
}

/// The method with the name and descriptor that an interface declares, if the class is an interface that
/// declares one that is neither private nor static.
pub fn interface_method_of(
    world: &World,
    c: ClassId,
    name: &Name,
    desc: &MethodDesc,
) -> Option<MethodId>
    requires { c.number < length world.now }
    ensures found { IfSome result (λ m. (m.class ≡ c) × IsInterfaceMethod world.now name.now desc.now m) }
    ensures none { IfNone result ((m : MethodId) → m.class.number ≡ c.number → ¬ IsInterfaceMethod world.now name.now desc.now m) }
{
    if !is_interface_class(world, c) {
        return None;
    }
    wanted_method(world, c, name, desc, Wanted::Inherited)
}

/// The methods with the name and descriptor of the superinterfaces of a class that are neither private nor
/// static.
pub fn superinterface_methods(
    alloc: Global,
    world: &World,
    c: ClassId,
    name: &Name,
    desc: &MethodDesc,
) -> Result<Vec<MethodId>, AllocError>
    requires { c.number < length world.now }
    ensures { IfOk result (λ found. AreSuperinterfaceMethods world.now c.number name.now desc.now found.items) }
{
    let mut found = Vec::new(alloc);
    let supers = world.proper_supers(c);
    for d in supers {
        if let Some(m) = interface_method_of(world, *d, name, desc) {
            found.push(m)?;
        }
    }
    Ok(found)
}

/// Whether a class is a proper subtype of another.
fn is_below(world: &World, c: ClassId, d: ClassId) -> bool
    requires c_here { c.number < length world.now }
    requires d_here { d.number < length world.now }
    ensures { IsTrue result ↔ ProperSub world.now c.number d.number }
{
    if !world.sub(c, d) {
        return false;
    }
    c.number != d.number
}

/// Whether none of the methods is one of a proper subinterface of a method's interface.
fn is_specific(world: &World, methods: &[MethodId], m: MethodId) -> bool
    requires methods_here { AreHere world.now methods.now }
    requires here { HasMethod world.now m }
    ensures { IsTrue result ↔ IsSpecificAmong world.now methods.now m }
{
    for other in methods {
        if is_below(world, other.class, m.class) {
            return false;
        }
    }
    true
}

/// Whether a method is not abstract and none of the methods is one of a proper subinterface of its interface.
fn is_default(world: &World, methods: &[MethodId], m: MethodId) -> bool
    requires methods_here { AreHere world.now methods.now }
    requires here { HasMethod world.now m }
    ensures { IsTrue result ↔ IsDefaultAmong world.now methods.now m }
{
    !is_abstract(method_shape(world, m).flags) && is_specific(world, methods, m)
}

/// The first of the methods that is maximally specific and not abstract.
fn first_default(world: &World, methods: &[MethodId]) -> Option<MethodId>
    requires { AreHere world.now methods.now }
    ensures found { IfSome result (λ m. Contains methods.now m × IsDefaultAmong world.now methods.now m) }
    ensures none { IfNone result ((m : MethodId) → Contains methods.now m → ¬ IsDefaultAmong world.now methods.now m) }
{
    for m in methods {
        if is_default(world, methods, *m) {
            return Some(*m);
        }
    }
    None
}

/// Whether a method is maximally specific and not abstract only if it is this one.
fn agrees(world: &World, methods: &[MethodId], m: MethodId, other: MethodId) -> bool
    requires methods_here { AreHere world.now methods.now }
    requires here { HasMethod world.now other }
    ensures { IsTrue result ↔ (IsDefaultAmong world.now methods.now other → other ≡ m) }
{
    if other == m {
        return true;
    }
    !is_default(world, methods, other)
}

/// Whether no method but this one is maximally specific and not abstract.
fn is_only_default(world: &World, methods: &[MethodId], m: MethodId) -> bool
    requires { AreHere world.now methods.now }
    ensures { IsTrue result ↔ ((other : MethodId) → Contains methods.now other → IsDefaultAmong world.now methods.now other → other ≡ m) }
{
    for other in methods {
        if !agrees(world, methods, m, *other) {
            return false;
        }
    }
    true
}

/// The single one among the methods that is maximally specific and not abstract.
pub fn single_default(world: &World, methods: &[MethodId]) -> Option<MethodId>
    requires { AreHere world.now methods.now }
    ensures found { IfSome result (IsSingleAmong world.now methods.now) }
    ensures none { IfNone result ((m : MethodId) → ¬ IsSingleAmong world.now methods.now m) }
{
    let Some(m) = first_default(world, methods) else {
        return None;
    };
    if is_only_default(world, methods, m) {
        return Some(m);
    }
    None
}
