ghost use Rattle.std.specs.Prelude.{◌≡◌, ◌==◌, ◌↔◌, Bool, IsTrue, IfOk};
ghost use Rattle.jv_table.specs.declared.ops.TheConstants.{INVOKEVIRTUAL, INVOKEINTERFACE, INVOKESTATIC};
ghost use Rattle.jv_types.specs.declared.shapes.FieldShape.{FieldShape as FieldValue};
ghost use Rattle.jv_types.specs.declared.shapes.MethodShape.{MethodShape as MethodValue};
ghost use Rattle.jv_world.specs.Worlds.{IsWorld};
ghost use Rattle.jv_resolve.specs.Members.{HasField, HasMethod, IsField, IsMethod};
ghost use Rattle.av_conditions.specs.RightReferences.{is_static_access, AreRightOperands, IsConstantThere, IsRightCall, IsRightField, IsRightForm};

use crate::members::{resolved_call, resolved_field};
use crate::types::{is_right_type, is_type_there};
use jv_resolve::is_static;
use jv_table::ops;
use jv_types::{Access, Arg, Const, FieldId, FieldRef, MethodId, MethodRef};
use jv_world::World;
use std::alloc::{AllocError, Global};

/// Whether the opcode reads or writes a static field.
fn is_static_access(op: u8) -> bool
    ensures { result ≡ is_static_access op }
{
    op == ops::GETSTATIC || op == ops::PUTSTATIC
}

/// Whether a member is static exactly where one is wanted.
fn agrees(wanted: bool, has: bool) -> bool
    ensures { IsTrue result ↔ (IsTrue wanted ↔ IsTrue has) }
{
    if wanted { has } else { !has }
}

/// The access flags of a field (JVMS table 4.5-A).
pub fn field_flags(world: &World, f: FieldId) -> Access
    requires { HasField world.now f }
    ensures flags { (x : FieldValue) × IsField world.now f x × (result ≡ x.flags) }
    ensures world { IsWorld world.now }
{
    world.shape(f.class).fields.as_slice()[f.index as usize].flags
}

/// The access flags of a method (JVMS table 4.6-A).
pub fn method_flags(world: &World, m: MethodId) -> Access
    requires { HasMethod world.now m }
    ensures flags { (x : MethodValue) × IsMethod world.now m x × (result ≡ x.flags) }
    ensures world { IsWorld world.now }
{
    world.shape(m.class).methods.as_slice()[m.index as usize].flags
}

/// Whether the reference of a field instruction resolves and is of the right kind.
fn is_right_field(alloc: Global, world: &World, op: u8, r: &FieldRef) -> Result<bool, AllocError>
    ensures { IfOk result (λ right. IsTrue right ↔ IsRightField world.now op r.now) }
{
    let Some(f) = resolved_field(alloc, world, r)? else {
        return Ok(false);
    };
    let flags = field_flags(world, f);
    Ok(agrees(is_static_access(op), is_static(flags)))
}

/// Whether a reference that names an interface, or none, suits the opcode.
fn is_right_form(op: u8, interface: bool) -> bool
    ensures { IsTrue result ↔ IsRightForm op interface }
{
    if op == ops::INVOKEVIRTUAL {
        return !interface;
    }
    if op == ops::INVOKEINTERFACE {
        return interface;
    }
    true
}

/// Whether the reference of a call resolves and is of the right kind.
fn is_right_call(alloc: Global, world: &World, op: u8, r: &MethodRef) -> Result<bool, AllocError>
    ensures { IfOk result (λ right. IsTrue right ↔ IsRightCall world.now op r.now) }
{
    if !is_right_form(op, r.interface) {
        return Ok(false);
    }
    if !is_type_there(world, &r.class) {
        return Ok(false);
    }
    let Some(m) = resolved_call(alloc, world, r)? else {
        return Ok(false);
    };
    let flags = method_flags(world, m);
    Ok(agrees(op == ops::INVOKESTATIC, is_static(flags)))
}

/// Whether the type of a loaded class constant is there.
fn is_constant_there(world: &World, constant: &Const) -> bool
    ensures { IsTrue result ↔ IsConstantThere world.now constant.now }
{
    match constant {
        Const::Class(type_of) => is_type_there(world, type_of),
        _ => true,
    }
}

/// Whether what the operands name is there and of the right kind for the opcode. Only memory can be wanting.
pub fn are_right_operands(
    alloc: Global,
    world: &World,
    op: u8,
    arg: &Arg,
) -> Result<bool, AllocError>
    ensures { IfOk result (λ right. IsTrue right ↔ AreRightOperands world.now op arg.now) }
{
    match arg {
        Arg::Field(r) => is_right_field(alloc, world, op, r),
        Arg::Method(r) => is_right_call(alloc, world, op, r),
        Arg::Class(type_of) => Ok(is_right_type(world, op, type_of)),
        Arg::Multi(type_of, _) => Ok(is_type_there(world, type_of)),
        Arg::Constant(constant) => Ok(is_constant_there(world, constant)),
        _ => Ok(true),
    }
}
