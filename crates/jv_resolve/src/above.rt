ghost use Rattle.std.specs.Prelude.{◌≡◌, ◌<◌, length, map, IfOk, IfSome, IfNone};
ghost use Rattle.jv_types.specs.declared.ids.MethodId.{MethodId};
ghost use Rattle.jv_resolve.specs.Steps.Among.{AreSuperinterfaceMethods};
ghost use Rattle.jv_resolve.specs.DepthFirst.{IsFirst, LeadsUpTo};
ghost use Rattle.jv_resolve.specs.Members.{DeclaresMethod};
ghost use Rattle.jv_resolve.specs.Inheriting.{IsSingleDefault};
ghost use Rattle.jv_resolve.specs.Resolving.{DeclaresFor, ResolvesAbove};

use crate::depth_first::first_target;
use crate::superinterfaces::{interface_method_of, single_default, superinterface_methods};
use jv_types::{ClassId, MethodDesc, MethodId, Name};
use jv_world::World;
use std::alloc::{AllocError, Global};

/// The classes that declare the methods.
fn classes_of(alloc: Global, methods: &[MethodId]) -> Result<Vec<ClassId>, AllocError>
    ensures { IfOk result (λ v. v.items ≡ map (λ m. m.class) methods.now) }
{
    methods.iter().map(|m| m.class).collect(alloc)
}

/// The single non-abstract one of the maximally specific superinterface methods of a class.
pub fn default_above(
    alloc: Global,
    world: &World,
    c: ClassId,
    name: &Name,
    desc: &MethodDesc,
) -> Result<Option<MethodId>, AllocError>
    requires { c.number < length world.now }
    ensures found { IfOk result (λ o. IfSome o (IsSingleDefault world.now c.number name.now desc.now)) }
    ensures none { IfOk result (λ o. IfNone o ((m : MethodId) → ¬ IsSingleDefault world.now c.number name.now desc.now m)) }
{
    let methods = superinterface_methods(alloc, world, c, name, desc)?;
    Ok(single_default(world, methods.as_slice()))
}

/// The first of the superinterface methods of a class, depth first.
fn first_above(
    alloc: Global,
    world: &World,
    c: ClassId,
    name: &Name,
    desc: &MethodDesc,
) -> Result<Option<MethodId>, AllocError>
    requires { c.number < length world.now }
    ensures found { IfOk result (λ o. IfSome o (λ m. DeclaresMethod world.now name.now desc.now m × IsFirst world.now (DeclaresFor world.now c.number name.now desc.now) c.number m.class.number)) }
    ensures none { IfOk result (λ o. IfNone o (¬ LeadsUpTo world.now (DeclaresFor world.now c.number name.now desc.now) c.number)) }
{
    let methods = superinterface_methods(alloc, world, c, name, desc)?;
    let targets = classes_of(alloc, methods.as_slice())?;
    let Some(d) = first_target(world, c, targets.as_slice()) else {
        return Ok(None);
    };
    let Some(m) = interface_method_of(world, d, name, desc) else {
        unreachable!();
    };
    Ok(Some(m))
}

/// The method above a class (JVMS 5.4.3.3, step 3): the single non-abstract one of the maximally specific
/// superinterface methods, or else the first superinterface method depth first.
pub fn method_above(
    alloc: Global,
    world: &World,
    c: ClassId,
    name: &Name,
    desc: &MethodDesc,
) -> Result<Option<MethodId>, AllocError>
    requires { c.number < length world.now }
    ensures found { IfOk result (λ o. IfSome o (ResolvesAbove world.now c.number name.now desc.now)) }
    ensures none { IfOk result (λ o. IfNone o ((m : MethodId) → ¬ ResolvesAbove world.now c.number name.now desc.now m)) }
{
    if let Some(m) = default_above(alloc, world, c, name, desc)? {
        return Ok(Some(m));
    }
    first_above(alloc, world, c, name, desc)
}
