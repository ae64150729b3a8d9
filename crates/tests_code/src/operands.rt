//! Operands of instructions as text: a word for their kind, and then their parts.

use jv_desc::{field_desc, method_desc};
use jv_types::{Arg, Const, Desc, FieldRef, MethodRef, Name, RefType};
use std::alloc::Global;
use std::test::Fail;
use tests_text::word;

/// A reference type, of its descriptor.
fn type_of(alloc: Global, text: &str) -> Result<RefType, Fail> {
    match field_desc(alloc, text.as_bytes())? {
        Desc::Ref(of) => Ok(of),
        Desc::Prim(_) => Err(Fail::from("a reference type")),
    }
}

/// The operand of newarray, of the descriptor of a primitive type.
fn new_prim(alloc: Global, text: &str) -> Result<Arg, Fail> {
    match field_desc(alloc, text.as_bytes())? {
        Desc::Prim(of) => Ok(Arg::NewPrim(of)),
        Desc::Ref(_) => Err(Fail::from("a primitive type")),
    }
}

/// A field, of the words of its class's name, its name and its descriptor.
fn field_of(alloc: Global, text: &str) -> Result<FieldRef, Fail> {
    Ok(FieldRef {
        class: Name::from_slice(alloc, word(text, 1).as_bytes())?,
        name: Name::from_slice(alloc, word(text, 2).as_bytes())?,
        desc: field_desc(alloc, word(text, 3).as_bytes())?,
    })
}

/// A method, of the words `interface` or another, its class's descriptor, its name and its descriptor.
fn method_of(alloc: Global, text: &str) -> Result<MethodRef, Fail> {
    Ok(MethodRef {
        class: type_of(alloc, word(text, 1))?,
        name: Name::from_slice(alloc, word(text, 2).as_bytes())?,
        desc: method_desc(alloc, word(text, 3).as_bytes())?,
        interface: word(text, 0) == "interface",
    })
}

/// A constant, of the words of its kind and its value: an int, the bits of a float or a double, a long, or the
/// descriptor of a class.
fn const_of(alloc: Global, kind: &str, value: &str) -> Result<Const, Fail> {
    Ok(match kind {
        "int" => Const::Int(value.parse::<i32>()?),
        "float" => Const::Float(value.parse::<u32>()?),
        "long" => Const::Long(value.parse::<i64>()?),
        "double" => Const::Double(value.parse::<u64>()?),
        _ => Const::Class(type_of(alloc, value)?),
    })
}

/// Operands of a text.
pub fn arg_of(alloc: Global, text: &str) -> Result<Arg, Fail> {
    let one = word(text, 1);
    let two = word(text, 2);
    Ok(match word(text, 0) {
        "local" => Arg::Local(one.parse::<u16>()?),
        "small" => Arg::Small(one.parse::<i16>()?),
        "inc" => Arg::Inc(one.parse::<u16>()?, two.parse::<i16>()?),
        "jump" => Arg::Jump(one.parse::<u16>()?),
        "constant" => Arg::Constant(const_of(alloc, one, two)?),
        "class" => Arg::Class(type_of(alloc, one)?),
        "field" => Arg::Field(field_of(alloc, text)?),
        "method" | "interface" => Arg::Method(method_of(alloc, text)?),
        "newarray" => new_prim(alloc, one)?,
        "multi" => Arg::Multi(type_of(alloc, one)?, two.parse::<u8>()?),
        "dynamic" => Arg::Dynamic,
        _ => Arg::Nothing,
    })
}
