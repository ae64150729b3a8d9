ghost use Rattle.std.specs.Prelude.{◌↔◌, ◌<◌, length, IsTrue, IfOk};
ghost use Rattle.jv_types.specs.declared.ids.FieldId.{FieldId as FieldIdValue};
ghost use Rattle.jv_types.specs.declared.ids.MethodId.{MethodId as MethodIdValue};
ghost use Rattle.jv_resolve.specs.Access.{IsFieldAccessible, IsMethodAccessible};
ghost use Rattle.jv_resolve.specs.Resolving.{ResolvesField};
ghost use Rattle.av_conditions.specs.Members.{ResolvesCall};
ghost use Rattle.av_insn_rules.specs.InsnRules.{AreAccessible, IsConstantAccessible, IsNameAccessible, IsTypeAccessible};

use crate::worlds::is_a_world;
use av_conditions::{resolved_call, resolved_field};
use jv_resolve::{is_class_accessible, is_field_accessible, is_method_accessible};
use jv_types::{Arg, ClassId, Const, FieldRef, MethodRef, Name, RefType};
use jv_world::World;
use std::alloc::{AllocError, Global};

/// Whether the class of a name is accessible from the class `from`, where there is one (JVMS 5.4.4).
fn is_name_accessible(world: &World, from: ClassId, name: &Name) -> bool
    requires { from.number < length world.now }
    ensures { IsTrue result ↔ IsNameAccessible world.now from.number name.now }
{
    match world.class(name) {
        None => true,
        Some(c) => is_class_accessible(world, from, c),
    }
}

/// Whether the class inside a type is accessible, where there is one.
fn is_type_accessible(world: &World, from: ClassId, type_of: &RefType) -> bool
    requires { from.number < length world.now }
    ensures { IsTrue result ↔ IsTypeAccessible world.now from.number type_of.now }
{
    match type_of {
        RefType::Class(name) => is_name_accessible(world, from, name),
        RefType::PrimArray(_) => true,
        RefType::Array(item) => is_type_accessible(world, from, item.get()),
    }
}

/// Whether the type of a loaded class is accessible.
fn is_constant_accessible(world: &World, from: ClassId, constant: &Const) -> bool
    requires { from.number < length world.now }
    ensures { IsTrue result ↔ IsConstantAccessible world.now from.number constant.now }
{
    match constant {
        Const::Class(type_of) => is_type_accessible(world, from, type_of),
        _ => true,
    }
}

/// Whether the field to which a reference resolves is accessible, where there is one.
fn is_found_field_accessible(
    alloc: Global,
    world: &World,
    from: ClassId,
    r: &FieldRef,
) -> Result<bool, AllocError>
    requires { from.number < length world.now }
    ensures { IfOk result (λ allowed. IsTrue allowed ↔ ((f : FieldIdValue) → ResolvesField world.now r.now f → IsFieldAccessible world.now from.number r.now f)) }
{
    is_a_world(world);
    match resolved_field(alloc, world, r)? {
        None => Ok(true),
        Some(f) => Ok(is_field_accessible(world, from, r, f)),
    }
}

/// Whether the method to which a reference resolves is accessible, where there is one.
fn is_found_method_accessible(
    alloc: Global,
    world: &World,
    from: ClassId,
    r: &MethodRef,
) -> Result<bool, AllocError>
    requires { from.number < length world.now }
    ensures { IfOk result (λ allowed. IsTrue allowed ↔ ((m : MethodIdValue) → ResolvesCall world.now r.now m → IsMethodAccessible world.now from.number r.now m)) }
{
    is_a_world(world);
    match resolved_call(alloc, world, r)? {
        None => Ok(true),
        Some(m) => Ok(is_method_accessible(world, from, r, m)),
    }
}

/// Whether what a reference to a field names is accessible.
fn is_field_ref_accessible(
    alloc: Global,
    world: &World,
    from: ClassId,
    r: &FieldRef,
) -> Result<bool, AllocError>
    requires { from.number < length world.now }
    ensures { IfOk result (λ allowed. IsTrue allowed ↔ AreAccessible world.now from.number (Arg.Field r.now)) }
{
    if !is_name_accessible(world, from, &r.class) {
        return Ok(false);
    }
    is_found_field_accessible(alloc, world, from, r)
}

/// Whether what a reference to a method names is accessible.
fn is_method_ref_accessible(
    alloc: Global,
    world: &World,
    from: ClassId,
    r: &MethodRef,
) -> Result<bool, AllocError>
    requires { from.number < length world.now }
    ensures { IfOk result (λ allowed. IsTrue allowed ↔ AreAccessible world.now from.number (Arg.Method r.now)) }
{
    if !is_type_accessible(world, from, &r.class) {
        return Ok(false);
    }
    is_found_method_accessible(alloc, world, from, r)
}

/// Whether what operands name is accessible from the class `from`, where it is found (JVMS 5.4.4). Only memory can
/// be wanting.
pub fn are_accessible(
    alloc: Global,
    world: &World,
    from: ClassId,
    arg: &Arg,
) -> Result<bool, AllocError>
    requires { from.number < length world.now }
    ensures { IfOk result (λ allowed. IsTrue allowed ↔ AreAccessible world.now from.number arg.now) }
{
    match arg {
        Arg::Field(r) => is_field_ref_accessible(alloc, world, from, r),
        Arg::Method(r) => is_method_ref_accessible(alloc, world, from, r),
        Arg::Class(type_of) => Ok(is_type_accessible(world, from, type_of)),
        Arg::Multi(type_of, _) => Ok(is_type_accessible(world, from, type_of)),
        Arg::Constant(constant) => Ok(is_constant_accessible(world, from, constant)),
        _ => Ok(true),
    }
}
