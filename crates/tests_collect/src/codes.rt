use jv_table::ops;
use jv_types::{Arg, Body, Const, Handler, Insn, Seq};
use std::alloc::Global;
use std::test::Fail;
use tests_shapes::{field_ref_of, method_ref_of, name_of, type_of};

/// The opcode and the operands of a kind of instruction and what it names.
fn parts_of(alloc: Global, kind: &str, text: &str) -> Result<(u8, Arg), Fail> {
    Ok(match kind {
        "load" => (ops::LDC, Arg::Constant(Const::Class(type_of(alloc, text)?))),
        "new" => (ops::NEW, Arg::Class(type_of(alloc, text)?)),
        "array" => (ops::ANEWARRAY, Arg::Class(type_of(alloc, text)?)),
        "arrays" => (ops::MULTIANEWARRAY, Arg::Multi(type_of(alloc, text)?, 1)),
        "get" => (ops::GETFIELD, Arg::Field(field_ref_of(alloc, text)?)),
        "call" => (
            ops::INVOKEVIRTUAL,
            Arg::Method(method_ref_of(alloc, text, false)?),
        ),
        "interface" => (
            ops::INVOKEINTERFACE,
            Arg::Method(method_ref_of(alloc, text, true)?),
        ),
        _ => return Err(Fail::from("a kind of instruction")),
    })
}

/// A code of one instruction.
fn acting(alloc: Global, kind: &str, text: &str) -> Result<Body, Fail> {
    let (op, arg) = parts_of(alloc, kind, text)?;
    let wide = false;
    let mut insns = Seq::new(alloc);
    insns.push((0, Insn { op, wide, arg }))?;
    Ok(Body {
        max_stack: 1,
        max_locals: 1,
        length: 1,
        insns,
        handlers: Seq::new(alloc),
    })
}

/// A code of one handler, which catches this class.
fn catching(alloc: Global, class: &str) -> Result<Body, Fail> {
    let mut handlers = Seq::new(alloc);
    handlers.push(Handler {
        start: 0,
        end: 1,
        target: 1,
        catch: Some(name_of(alloc, class)?),
    })?;
    Ok(Body {
        max_stack: 1,
        max_locals: 1,
        length: 1,
        insns: Seq::new(alloc),
        handlers,
    })
}

/// A code that names what a text says, by an instruction of this kind or by a handler.
pub fn body_of(alloc: Global, kind: &str, text: &str) -> Result<Body, Fail> {
    if kind == "catch" {
        return catching(alloc, text);
    }
    acting(alloc, kind, text)
}
