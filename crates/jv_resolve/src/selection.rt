ghost use Rattle.std.specs.Prelude.{◌≡◌, ◌<◌, length, IfOk, IfSome, IfNone};
ghost use Rattle.jv_types.specs.declared.ids.MethodId.{MethodId};
ghost use Rattle.jv_resolve.specs.Members.{HasMethod, IsConcrete};
ghost use Rattle.jv_resolve.specs.Steps.Wanted.{IsWanted, HasResolved};
ghost use Rattle.jv_resolve.specs.Selecting.{SelectsBy, SelectsVirtual, SelectsInterface};

use crate::above::default_above;
use crate::flags::is_abstract;
use crate::members::method_shape;
use crate::nearest::{Wanted, nearest};
use jv_types::{ClassId, MethodDesc, MethodId, Name};
use jv_world::World;
use std::alloc::{AllocError, Global};

/// A method, where it is not abstract.
pub fn concrete_only(world: &World, m: MethodId) -> Option<MethodId>
    requires { HasMethod world.now m }
    ensures found { IfSome result (λ s. (s ≡ m) × IsConcrete world.now s) }
    ensures none { IfNone result (¬ IsConcrete world.now m) }
{
    if is_abstract(method_shape(world, m).flags) {
        return None;
    }
    Some(m)
}

/// The nearest wanted method along the superclasses, or else the single non-abstract one of the maximally
/// specific superinterface methods; no abstract one.
pub fn select_by(
    alloc: Global,
    world: &World,
    c: ClassId,
    name: &Name,
    desc: &MethodDesc,
    wanted: Wanted,
) -> Result<Option<MethodId>, AllocError>
    requires here { c.number < length world.now }
    requires resolved { HasResolved world.now wanted }
    ensures found { IfOk result (λ o. IfSome o (SelectsBy world.now (IsWanted world.now name.now desc.now wanted) c.number name.now desc.now)) }
    ensures none { IfOk result (λ o. IfNone o ((s : MethodId) → ¬ SelectsBy world.now (IsWanted world.now name.now desc.now wanted) c.number name.now desc.now s)) }
{
    if let Some(m) = nearest(world, c, name, desc, wanted) {
        return Ok(concrete_only(world, m));
    }
    default_above(alloc, world, c, name, desc)
}

/// The method that `invokevirtual` of the method `m` runs on an object of the class `c` (JVMS 6.5): the
/// nearest declaration, from `c` up its superclasses, that overrides `m`, or else the single non-abstract one
/// of the maximally specific superinterface methods. Private and static methods are passed over, and an
/// abstract one is no answer. Only memory can be wanting.
pub fn select_virtual(
    alloc: Global,
    world: &World,
    c: ClassId,
    m: MethodId,
) -> Result<Option<MethodId>, AllocError>
    requires class_here { c.number < length world.now }
    requires method_here { HasMethod world.now m }
    ensures selected { IfOk result (λ o. IfSome o (SelectsVirtual world.now c.number m)) }
    ensures none { IfOk result (λ o. IfNone o ((s : MethodId) → ¬ SelectsVirtual world.now c.number m s)) }
{
    let shape = method_shape(world, m);
    let wanted = Wanted::Overriding(m);
    select_by(alloc, world, c, &shape.name, &shape.desc, wanted)
}

/// The method that `invokeinterface` of the method `m` runs on an object of the class `c` (JVMS 6.5): as for
/// `invokevirtual`, but by the name and descriptor of `m` alone. Only memory can be wanting.
pub fn select_interface(
    alloc: Global,
    world: &World,
    c: ClassId,
    m: MethodId,
) -> Result<Option<MethodId>, AllocError>
    requires class_here { c.number < length world.now }
    requires method_here { HasMethod world.now m }
    ensures selected { IfOk result (λ o. IfSome o (SelectsInterface world.now c.number m)) }
    ensures none { IfOk result (λ o. IfNone o ((s : MethodId) → ¬ SelectsInterface world.now c.number m s)) }
{
    let shape = method_shape(world, m);
    select_by(alloc, world, c, &shape.name, &shape.desc, Wanted::Inherited)
}
