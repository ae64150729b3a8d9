ghost use Rattle.std.specs.Prelude.{◌≡◌, IfOk, IfSome, IfNone};
ghost use Rattle.jv_types.specs.declared.ids.FieldId.{FieldId};
ghost use Rattle.jv_types.specs.declared.ids.MethodId.{MethodId};
ghost use Rattle.jv_resolve.specs.Resolving.{ResolvesField, ResolvesInterfaceMethod, ResolvesMethod};
ghost use Rattle.av_conditions.specs.Members.{ResolvesCall};

use jv_resolve::{ResolveRefusal, resolve_field, resolve_interface_method, resolve_method};
use jv_types::{FieldId, FieldRef, MethodId, MethodRef};
use jv_world::World;
use std::alloc::{AllocError, Global};

/// The field to which a reference resolves, if there is one (JVMS 5.4.3.2). Only memory can be wanting.
pub fn resolved_field(
    alloc: Global,
    world: &World,
    r: &FieldRef,
) -> Result<Option<FieldId>, AllocError>
    ensures found { IfOk result (λ o. IfSome o (ResolvesField world.now r.now)) }
    ensures none { IfOk result (λ o. IfNone o ((f : FieldId) → ¬ ResolvesField world.now r.now f)) }
{
    match resolve_field(alloc, world, r) {
        Ok(f) => Ok(Some(f)),
        Err(ResolveRefusal::NotFound) => Ok(None),
        Err(ResolveRefusal::WrongKind) => Ok(None),
        Err(ResolveRefusal::NoAccess) => Ok(None),
        Err(ResolveRefusal::Memory) => Err(AllocError),
    }
}

/// The method of a class or array to which a reference resolves, if there is one (JVMS 5.4.3.3). Only memory can
/// be wanting.
pub fn resolved_method(
    alloc: Global,
    world: &World,
    r: &MethodRef,
) -> Result<Option<MethodId>, AllocError>
    ensures found { IfOk result (λ o. IfSome o (ResolvesMethod world.now r.now)) }
    ensures none { IfOk result (λ o. IfNone o ((m : MethodId) → ¬ ResolvesMethod world.now r.now m)) }
{
    match resolve_method(alloc, world, r) {
        Ok(m) => Ok(Some(m)),
        Err(ResolveRefusal::NotFound) => Ok(None),
        Err(ResolveRefusal::WrongKind) => Ok(None),
        Err(ResolveRefusal::NoAccess) => Ok(None),
        Err(ResolveRefusal::Memory) => Err(AllocError),
    }
}

/// The method of an interface to which a reference resolves, if there is one.
fn resolved_interface_method(
    alloc: Global,
    world: &World,
    r: &MethodRef,
) -> Result<Option<MethodId>, AllocError>
    ensures found { IfOk result (λ o. IfSome o (ResolvesInterfaceMethod world.now r.now)) }
    ensures none { IfOk result (λ o. IfNone o ((m : MethodId) → ¬ ResolvesInterfaceMethod world.now r.now m)) }
{
    match resolve_interface_method(alloc, world, r) {
        Ok(m) => Ok(Some(m)),
        Err(ResolveRefusal::NotFound) => Ok(None),
        Err(ResolveRefusal::WrongKind) => Ok(None),
        Err(ResolveRefusal::NoAccess) => Ok(None),
        Err(ResolveRefusal::Memory) => Err(AllocError),
    }
}

/// The method to which a reference resolves, if there is one, by what the reference says that it names (JVMS
/// 5.4.3.3, 5.4.3.4). Only memory can be wanting.
pub fn resolved_call(
    alloc: Global,
    world: &World,
    r: &MethodRef,
) -> Result<Option<MethodId>, AllocError>
    ensures found { IfOk result (λ o. IfSome o (ResolvesCall world.now r.now)) }
    ensures none { IfOk result (λ o. IfNone o ((m : MethodId) → ¬ ResolvesCall world.now r.now m)) }
{
    if r.interface {
        return resolved_interface_method(alloc, world, r);
    }
    resolved_method(alloc, world, r)
}
