ghost use Rattle.jv_desc.specs.Texts.{ref_dims};
ghost use Rattle.av_collected.specs.Naming.{ArgHasDims, ConstHasDims, TypeHasDims};
ghost use Rattle.av_dims.specs.Greatest.{AreSmall, BodyDims, IsGreatest, OfSome, RowDims};

use crate::types::{desc_dims, greater, greatest_in_method, type_dims};
use av_collected::MethodBody;
use jv_table::ops;
use jv_types::{Arg, Const, Insn, MethodRef, RefType};

/// The greatest number of dimensions of an instruction's type, or of the array that an anewarray makes of its items,
/// and at least 1.
fn greatest_in_type(op: u8, of: &RefType) -> u8
    requires { AreSmall (TypeHasDims op (ref_dims of.now)) }
    ensures { IsGreatest (TypeHasDims op (ref_dims of.now)) result }
{
    if op == ops::ANEWARRAY {
        type_dims(of) + 1
    } else {
        greater(1, type_dims(of))
    }
}

/// The greatest number of dimensions in a reference to a method, and at least 1.
fn greatest_in_reference(op: u8, r: &MethodRef) -> u8
    requires { AreSmall (ArgHasDims op (Arg.Method r.now)) }
    ensures { IsGreatest (ArgHasDims op (Arg.Method r.now)) result }
{
    greater(type_dims(&r.class), greatest_in_method(&r.desc))
}

/// The greatest number of dimensions of the type in a Class constant, and at least 1.
fn greatest_in_constant(constant: &Const) -> u8
    requires { AreSmall (ConstHasDims constant.now) }
    ensures { IsGreatest (ConstHasDims constant.now) result }
{
    match constant {
        Const::Class(of) => greater(1, type_dims(of)),
        _ => 1,
    }
}

/// The greatest number of dimensions in an instruction, and at least 1.
fn greatest_in_insn(insn: &Insn) -> u8
    requires { AreSmall (ArgHasDims insn.now.op insn.now.arg) }
    ensures { IsGreatest (ArgHasDims insn.now.op insn.now.arg) result }
{
    match &insn.arg {
        Arg::Constant(constant) => greatest_in_constant(constant),
        Arg::Class(of) => greatest_in_type(insn.op, of),
        Arg::Multi(of, _) => greater(1, type_dims(of)),
        Arg::Field(r) => greater(1, desc_dims(&r.desc)),
        Arg::Method(r) => greatest_in_reference(insn.op, r),
        _ => 1,
    }
}

/// The greatest number of dimensions in the instructions of a code, and at least 1.
fn greatest_in_rows(rows: &[(u16, Insn)]) -> u8
    requires { AreSmall (OfSome RowDims rows.now) }
    ensures { IsGreatest (OfSome RowDims rows.now) result }
{
    let mut dims = 1;
    for row in rows {
        dims = greater(dims, greatest_in_insn(&row.1));
    }
    dims
}

/// The greatest number of dimensions in the instructions of these codes, and at least 1.
pub fn greatest_in_bodies(bodies: &[MethodBody]) -> u8
    requires { AreSmall (OfSome BodyDims bodies.now) }
    ensures { IsGreatest (OfSome BodyDims bodies.now) result }
{
    let mut dims = 1;
    for method in bodies {
        dims = greater(dims, greatest_in_rows(method.body.insns.as_slice()));
    }
    dims
}
