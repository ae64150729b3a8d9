ghost use Rattle.std.specs.Prelude.{◌≡◌, ℕ, ◌<◌, ◌↔◌, length, IsTrue, IfOk, IfErr, IfSome, IfNone};
ghost use Rattle.jv_types.specs.declared.ids.FieldId.{FieldId};
ghost use Rattle.jv_resolve.specs.Members.{DeclaresField};
ghost use Rattle.jv_resolve.specs.DepthFirst.{IsFirst, LeadsUpTo};
ghost use Rattle.jv_resolve.specs.Resolving.{DeclaresFieldIn, ResolvesField};
ghost use Rattle.jv_resolve.specs.Steps.Targets.{AreDeclaring};
ghost use Rattle.jv_resolve.specs.Access.{IsFieldAccessible};
ghost use Rattle.jv_resolve.specs.Refusals.{HasFieldCause, IsFieldUnresolved};

use crate::access::is_field_accessible;
use crate::depth_first::first_target;
use crate::members::declared_field;
use crate::refusal::ResolveRefusal;
use jv_types::{ClassId, Desc, FieldId, FieldRef, Name};
use jv_world::World;
use std::alloc::{AllocError, Global};

/// Whether a class declares the field.
fn declares_field(world: &World, c: ClassId, name: &Name, desc: &Desc) -> bool
    requires { c.number < length world.now }
    ensures { IsTrue result ↔ DeclaresFieldIn world.now name.now desc.now c.number }
{
    match declared_field(world, c, name, desc) {
        None => false,
        Some(_) => true,
    }
}

/// The classes from a class on upwards that declare the field.
fn declaring_classes(
    alloc: Global,
    world: &World,
    c: ClassId,
    name: &Name,
    desc: &Desc,
) -> Result<Vec<ClassId>, AllocError>
    requires { c.number < length world.now }
    ensures { IfOk result (λ found. AreDeclaring world.now c.number name.now desc.now found.items) }
{
    let mut found = Vec::new(alloc);
    let supers = world.proper_supers(c);
    for d in supers {
        if declares_field(world, *d, name, desc) {
            found.push(*d)?;
        }
    }
    if declares_field(world, c, name, desc) {
        found.push(c)?;
    }
    Ok(found)
}

/// The field that a search from a class finds (JVMS 5.4.3.2).
fn field_from(
    alloc: Global,
    world: &World,
    c: ClassId,
    name: &Name,
    desc: &Desc,
) -> Result<Option<FieldId>, AllocError>
    requires { c.number < length world.now }
    ensures found { IfOk result (λ o. IfSome o (λ f. DeclaresField world.now name.now desc.now f × IsFirst world.now (DeclaresFieldIn world.now name.now desc.now) c.number f.class.number)) }
    ensures none { IfOk result (λ o. IfNone o (¬ LeadsUpTo world.now (DeclaresFieldIn world.now name.now desc.now) c.number)) }
{
    let targets = declaring_classes(alloc, world, c, name, desc)?;
    let Some(d) = first_target(world, c, targets.as_slice()) else {
        return Ok(None);
    };
    let Some(f) = declared_field(world, d, name, desc) else {
        unreachable!();
    };
    Ok(Some(f))
}

/// Resolves a reference to a field by the world and the reference alone (JVMS 5.4.3.2): in the named class,
/// then in its superinterfaces recursively, then in its superclass recursively. `NotFound` is exactly where
/// nothing is found, `WrongKind` and `NoAccess` never.
pub fn resolve_field(alloc: Global, world: &World, r: &FieldRef) -> Result<FieldId, ResolveRefusal>
    ensures resolved { IfOk result (ResolvesField world.now r.now) }
    ensures refused { IfErr result (IsFieldUnresolved world.now r.now) }
{
    let Some(named) = world.class(&r.class) else {
        return Err(ResolveRefusal::NotFound);
    };
    let Some(f) = field_from(alloc, world, named, &r.name, &r.desc)? else {
        return Err(ResolveRefusal::NotFound);
    };
    Ok(f)
}

/// Resolves a reference to a field, as the class `from` has it: as `resolve_field` does, and then refused
/// where the field isn't accessible from the class `from` (JVMS 5.4.4).
pub fn field(
    alloc: Global,
    world: &World,
    from: ClassId,
    r: &FieldRef,
) -> Result<FieldId, ResolveRefusal>
    requires { from.number < length world.now }
    ensures resolved { IfOk result (ResolvesField world.now r.now) }
    ensures accessible { IfOk result (IsFieldAccessible world.now from.number r.now) }
    ensures refused { IfErr result (HasFieldCause world.now from.number r.now) }
{
    let f = resolve_field(alloc, world, r)?;
    if !is_field_accessible(world, from, r, f) {
        return Err(ResolveRefusal::NoAccess);
    }
    Ok(f)
}
