ghost use Rattle.std.specs.Prelude.{◌≡◌, ℕ, ◌<◌, ◌↔◌, length, IsTrue, IfOk, IfSome, IfNone};
ghost use Rattle.jv_types.specs.declared.ids.MethodId.{MethodId};
ghost use Rattle.jv_resolve.specs.Members.{HasMethod};
ghost use Rattle.jv_resolve.specs.Selecting.{IsSuperclass, IsSuperCall, SpecialStart, SelectsInInterface, SelectsFrom, SelectsSpecial};

use crate::above::default_above;
use crate::class_methods::object_method;
use crate::members::method_shape;
use crate::nearest::{Wanted, wanted_method};
use crate::references::{is_init, named_class, start_of};
use crate::selection::{concrete_only, select_by};
use crate::superinterfaces::is_interface_class;
use jv_types::{ClassId, MethodDesc, MethodId, MethodRef, Name};
use jv_world::World;
use std::alloc::{AllocError, Global};

/// Whether a class is a superclass of another.
fn is_superclass(world: &World, c: ClassId, d: ClassId) -> bool
    requires { c.number < length world.now }
    ensures { IsTrue result ↔ IsSuperclass world.now c.number d.number }
{
    match world.superclass(c) {
        None => false,
        Some(parent) => world.is_subclass(parent, d),
    }
}

/// Whether `invokespecial` by the reference calls a method of a superclass of the class `from`.
fn is_super_call(world: &World, from: ClassId, r: &MethodRef, name: &Name) -> bool
    requires { from.number < length world.now }
    ensures { IsTrue result ↔ IsSuperCall world.now from.number r.now name.now }
{
    if is_init(name) {
        return false;
    }
    let Some(class_name) = named_class(&r.class) else {
        return false;
    };
    match world.class(class_name) {
        None => false,
        Some(class) => is_superclass(world, from, class),
    }
}

/// Where the search of `invokespecial` starts.
fn special_start(
    alloc: Global,
    world: &World,
    from: ClassId,
    r: &MethodRef,
    name: &Name,
) -> Result<Option<ClassId>, AllocError>
    requires { from.number < length world.now }
    ensures found { IfOk result (λ o. IfSome o (λ c. (c.number < length world.now) × SpecialStart world.now from.number r.now name.now c.number)) }
    ensures one { IfOk result (λ o. IfSome o (λ c. (d : ℕ) → SpecialStart world.now from.number r.now name.now d → d ≡ c.number)) }
    ensures none { IfOk result (λ o. IfNone o ((c : ℕ) → ¬ SpecialStart world.now from.number r.now name.now c)) }
{
    if is_super_call(world, from, r, name) {
        return Ok(world.superclass(from));
    }
    start_of(alloc, world, &r.class)
}

/// What `invokespecial` runs where its search starts at an interface.
fn select_in_interface(
    alloc: Global,
    world: &World,
    start: ClassId,
    name: &Name,
    desc: &MethodDesc,
    resolved: MethodId,
) -> Result<Option<MethodId>, AllocError>
    requires here { start.number < length world.now }
    requires resolved_here { HasMethod world.now resolved }
    ensures found { IfOk result (λ o. IfSome o (SelectsInInterface world.now resolved name.now desc.now start.number)) }
    ensures none { IfOk result (λ o. IfNone o ((s : MethodId) → ¬ SelectsInInterface world.now resolved name.now desc.now start.number s)) }
{
    let wanted = Wanted::Special(resolved);
    if let Some(m) = wanted_method(world, start, name, desc, wanted) {
        return Ok(concrete_only(world, m));
    }
    if let Some(m) = object_method(alloc, world, name, desc)? {
        return Ok(concrete_only(world, m));
    }
    default_above(alloc, world, start, name, desc)
}

/// What `invokespecial` runs where its search starts at this class or interface.
fn select_from(
    alloc: Global,
    world: &World,
    start: ClassId,
    name: &Name,
    desc: &MethodDesc,
    resolved: MethodId,
) -> Result<Option<MethodId>, AllocError>
    requires here { start.number < length world.now }
    requires resolved_here { HasMethod world.now resolved }
    ensures found { IfOk result (λ o. IfSome o (SelectsFrom world.now resolved name.now desc.now start.number)) }
    ensures none { IfOk result (λ o. IfNone o ((s : MethodId) → ¬ SelectsFrom world.now resolved name.now desc.now start.number s)) }
{
    if is_interface_class(world, start) {
        return select_in_interface(alloc, world, start, name, desc, resolved);
    }
    let wanted = Wanted::Special(resolved);
    select_by(alloc, world, start, name, desc, wanted)
}

/// The method that `invokespecial` of the method `m`, resolved from the reference, runs in the class `from`
/// (JVMS 6.5). The search starts at the direct superclass of `from` where the reference names a superclass
/// of it and `m` is not `<init>`, and otherwise at the named type. It finds the nearest declaration with the
/// name and descriptor of `m` (for an interface its own one, or else a public instance method of Object), or
/// else the single non-abstract one of the maximally specific superinterface methods. Static methods are
/// passed over, and private ones but `m` itself; an abstract one is no answer. Only memory can be wanting.
pub fn select_special(
    alloc: Global,
    world: &World,
    from: ClassId,
    r: &MethodRef,
    m: MethodId,
) -> Result<Option<MethodId>, AllocError>
    requires class_here { from.number < length world.now }
    requires method_here { HasMethod world.now m }
    ensures selected { IfOk result (λ o. IfSome o (SelectsSpecial world.now from.number r.now m)) }
    ensures none { IfOk result (λ o. IfNone o ((s : MethodId) → ¬ SelectsSpecial world.now from.number r.now m s)) }
{
    let shape = method_shape(world, m);
    let Some(start) = special_start(alloc, world, from, r, &shape.name)? else {
        return Ok(None);
    };
    select_from(alloc, world, start, &shape.name, &shape.desc, m)
}
