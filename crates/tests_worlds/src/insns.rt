//! Instructions as text: a mnemonic of the standard (JVMS 6.5) and what its operand names.

use jv_table::ops;
use jv_types::{Arg, Const, Insn};
use std::alloc::Global;
use std::test::Fail;
use tests_shapes::{field_ref_of, method_ref_of, type_of};
use tests_text::word;

/// The opcode of a mnemonic, and 0, which is nop's, for any other text.
fn opcode_of(mnemonic: &str) -> u8 {
    match mnemonic {
        "ldc" => ops::LDC,
        "getstatic" => ops::GETSTATIC,
        "putstatic" => ops::PUTSTATIC,
        "getfield" => ops::GETFIELD,
        "putfield" => ops::PUTFIELD,
        "invokevirtual" => ops::INVOKEVIRTUAL,
        "invokespecial" => ops::INVOKESPECIAL,
        "invokestatic" => ops::INVOKESTATIC,
        "invokeinterface" => ops::INVOKEINTERFACE,
        "new" => ops::NEW,
        "anewarray" => ops::ANEWARRAY,
        "checkcast" => ops::CHECKCAST,
        "instanceof" => ops::INSTANCEOF,
        "multianewarray" => ops::MULTIANEWARRAY,
        _ => 0,
    }
}

/// The operands that name a type.
fn type_arg_of(alloc: Global, op: u8, text: &str) -> Result<Arg, Fail> {
    let of = type_of(alloc, text)?;
    if op == ops::MULTIANEWARRAY {
        return Ok(Arg::Multi(of, 1));
    }
    if op == ops::LDC {
        return Ok(Arg::Constant(Const::Class(of)));
    }
    Ok(Arg::Class(of))
}

/// The operands of an instruction: a member, a type, or nothing.
fn arg_of(alloc: Global, op: u8, text: &str, interface: bool) -> Result<Arg, Fail> {
    if text.is_empty() {
        return Ok(Arg::Nothing);
    }
    if (ops::GETSTATIC..=ops::PUTFIELD).contains(&op) {
        return Ok(Arg::Field(field_ref_of(alloc, text)?));
    }
    if (ops::INVOKEVIRTUAL..=ops::INVOKEINTERFACE).contains(&op) {
        return Ok(Arg::Method(method_ref_of(alloc, text, interface)?));
    }
    type_arg_of(alloc, op, text)
}

/// An instruction of a text such as `invokestatic a/I.m interface`, where the last word says that the reference is
/// one to a method of an interface.
pub fn insn_of(alloc: Global, text: &str) -> Result<Insn, Fail> {
    let op = opcode_of(word(text, 0));
    let arg = arg_of(alloc, op, word(text, 1), word(text, 2) == "interface")?;
    Ok(Insn {
        op,
        wide: false,
        arg,
    })
}
