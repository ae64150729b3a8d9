//! Instructions as text: an opcode as a number, the kind of its operand, and the operand. Kinds are `local`, `jump`,
//! `load` of a constant, `class`, `field`, `method`, `imethod` for a method of an interface, `prim`, and `multi` of an
//! array type and how many of its dimensions are made.

use jv_desc::field_desc;
use jv_types::{Arg, Const, Desc, Insn, Prim};
use std::alloc::Global;
use std::test::Fail;
use tests_shapes::{field_ref_of, method_ref_of, type_of};

/// A constant of the name of its kind, or else the class or array of a text.
fn const_of(alloc: Global, text: &str) -> Result<Const, Fail> {
    Ok(match text {
        "int" => Const::Int(7),
        "float" => Const::Float(0),
        "long" => Const::Long(7),
        "double" => Const::Double(0),
        "text" => Const::Text,
        "handle" => Const::Handle,
        "type" => Const::MethodKind,
        _ => Const::Class(type_of(alloc, text)?),
    })
}

/// A primitive type, of its descriptor.
fn prim_of(alloc: Global, text: &str) -> Result<Prim, Fail> {
    match field_desc(alloc, text.as_bytes())? {
        Desc::Prim(prim) => Ok(prim),
        Desc::Ref(_) => Err(Fail::from("a primitive type")),
    }
}

/// An array type and a number of dimensions, with a colon between them.
fn multi_of(alloc: Global, text: &str) -> Result<Arg, Fail> {
    let (array, dims) = text.split_once(':').unwrap_or((text, "1"));
    Ok(Arg::Multi(type_of(alloc, array)?, dims.parse::<u8>()?))
}

/// An operand that names a class or a member.
fn reference_of(alloc: Global, kind: &str, text: &str) -> Result<Arg, Fail> {
    Ok(match kind {
        "class" => Arg::Class(type_of(alloc, text)?),
        "field" => Arg::Field(field_ref_of(alloc, text)?),
        "method" => Arg::Method(method_ref_of(alloc, text, false)?),
        "imethod" => Arg::Method(method_ref_of(alloc, text, true)?),
        _ => Arg::Nothing,
    })
}

/// An operand of its kind.
fn arg_of(alloc: Global, kind: &str, text: &str) -> Result<Arg, Fail> {
    match kind {
        "local" => Ok(Arg::Local(text.parse::<u16>()?)),
        "jump" => Ok(Arg::Jump(text.parse::<u16>()?)),
        "load" => Ok(Arg::Constant(const_of(alloc, text)?)),
        "prim" => Ok(Arg::NewPrim(prim_of(alloc, text)?)),
        "multi" => multi_of(alloc, text),
        _ => reference_of(alloc, kind, text),
    }
}

/// An instruction of its opcode and its operand.
pub fn insn_of(alloc: Global, op: &str, kind: &str, text: &str) -> Result<Insn, Fail> {
    Ok(Insn {
        op: op.parse::<u8>()?,
        wide: false,
        arg: arg_of(alloc, kind, text)?,
    })
}
