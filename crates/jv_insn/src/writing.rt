ghost use Rattle.std.specs.Prelude.{◌≡◌, ◌<◌, ◌^◌, ◌++◌, IsTrue, OnOk, pos, ◌+ℤ◌, ◌-ℤ◌, length, FitsSigned};
ghost use Rattle.std.specs.Int.{w8, w32};
ghost use Rattle.std.specs.List.{flat_map};
ghost use Rattle.jv_bytes.specs.Numbers.{number_text};
ghost use Rattle.jv_insn.specs.Layouts.{s4_text, padding_at, head_text};
ghost use Rattle.jv_insn.specs.Encoding.{is_narrow, small_text, signed_text, behind_method, atype_of, branch_offset, jump_text, padding_text, table_text, case_text, lookup_text, operand_text};
ghost use Rattle.jv_insn.specs.Steps.Writing.{FitsMethod, FitsJump, FitsArg};

use crate::switches::padding_at;
use jv_bytes::Writer;
use jv_desc::arg_words;
use jv_table::{Form, atypes, ops};
use jv_types::{Arg, MethodRef, Prim};
use std::alloc::AllocError;

/// Whether the numbers of a form take one byte each, and not two.
pub fn is_narrow(form: Form, wide: bool) -> bool
    ensures { result ≡ is_narrow form wide }
{
    match form {
        Form::Local | Form::Inc => !wide,
        Form::Small1 | Form::Load1 => true,
        _ => false,
    }
}

/// Writes an opcode, behind that of wide where the instruction is under wide.
pub fn put_head(writer: &mut Writer, wide: bool, op: u8) -> Result<(), AllocError>
    ensures { OnOk result (writer.new ≡ writer.old ++ head_text wide op) }
{
    if wide {
        writer.put_u1(ops::WIDE)?;
    }
    writer.put_u1(op)
}

/// Writes a byte, as a number.
fn put_byte(writer: &mut Writer, byte: u8) -> Result<(), AllocError>
    ensures { OnOk result (writer.new ≡ writer.old ++ number_text 1 byte) }
{
    writer.put_u1(byte)
}

/// Writes a number of one byte or of two.
fn put_small(writer: &mut Writer, narrow: bool, number: u16) -> Result<(), AllocError>
    requires { IsTrue narrow → number < 256 }
    ensures { OnOk result (writer.new ≡ writer.old ++ small_text narrow number) }
{
    if narrow {
        put_byte(writer, number as u8)
    } else {
        writer.put_u2(number)
    }
}

/// Writes a signed number of one byte or of two.
fn put_signed(writer: &mut Writer, narrow: bool, value: i16) -> Result<(), AllocError>
    requires { IsTrue narrow → FitsSigned w8 value }
    ensures { OnOk result (writer.new ≡ writer.old ++ signed_text narrow value) }
{
    if narrow {
        put_byte(writer, (value as i8).cast_unsigned())
    } else {
        writer.put_u2(value.cast_unsigned())
    }
}

/// Writes a signed number of four bytes.
fn put_s4(writer: &mut Writer, value: i32) -> Result<(), AllocError>
    ensures { OnOk result (writer.new ≡ writer.old ++ s4_text value) }
{
    writer.put_u4(value.cast_unsigned())
}

/// Writes what stands behind the index of a method.
fn put_behind_method(writer: &mut Writer, form: Form, method: &MethodRef) -> Result<(), AllocError>
    requires { FitsMethod form method.now }
    ensures { OnOk result (writer.new ≡ writer.old ++ behind_method form method.now) }
{
    match form {
        Form::InterfaceMethod => {
            put_byte(writer, arg_words(&method.desc, true) as u8)?;
            put_byte(writer, 0)
        }
        _ => Ok(()),
    }
}

/// The code of a primitive type in newarray.
fn atype_of(prim: Prim) -> u8
    ensures { result ≡ atype_of prim }
{
    match prim {
        Prim::Boolean => atypes::T_BOOLEAN,
        Prim::Char => atypes::T_CHAR,
        Prim::Float => atypes::T_FLOAT,
        Prim::Double => atypes::T_DOUBLE,
        Prim::Byte => atypes::T_BYTE,
        Prim::Short => atypes::T_SHORT,
        Prim::Int => atypes::T_INT,
        Prim::Long => atypes::T_LONG,
    }
}

/// The offset of a target from an instruction.
fn branch_offset(pc: u16, target: u16) -> i32
    ensures { result ≡ branch_offset pc target }
{
    i32::from(target) - i32::from(pc)
}

/// Writes the offset of a jump, in two bytes or in four.
fn put_jump(writer: &mut Writer, form: Form, offset: i32) -> Result<(), AllocError>
    requires { FitsJump form offset }
    ensures { OnOk result (writer.new ≡ writer.old ++ jump_text form offset) }
{
    match form {
        Form::Jump4 => put_s4(writer, offset),
        _ => writer.put_u2((offset as i16).cast_unsigned()),
    }
}

/// Writes the bytes between the opcode of a switch and its numbers.
fn put_padding(writer: &mut Writer, pc: u16) -> Result<(), AllocError>
    ensures { OnOk result (writer.new ≡ writer.old ++ padding_text pc) }
{
    for _ in 0..padding_at(usize::from(pc) + 1) {
        writer.put_u1(0)?;
    }
    Ok(())
}

/// Writes targets as offsets from an instruction.
fn put_targets(writer: &mut Writer, pc: u16, targets: &[u16]) -> Result<(), AllocError>
    ensures { OnOk result (writer.new ≡ writer.old ++ flat_map (λ target. s4_text (branch_offset pc target)) targets.now) }
{
    for target in targets {
        put_s4(writer, branch_offset(pc, *target))?;
    }
    Ok(())
}

/// Writes values of a lookupswitch, each with the offset of its target.
fn put_cases(writer: &mut Writer, pc: u16, cases: &[(i32, u16)]) -> Result<(), AllocError>
    ensures { OnOk result (writer.new ≡ writer.old ++ flat_map (case_text pc) cases.now) }
{
    for case in cases {
        put_s4(writer, case.0)?;
        put_s4(writer, branch_offset(pc, case.1))?;
    }
    Ok(())
}

/// The high value of a tableswitch that has so many targets from a low value on.
fn high_of(low: i32, count: usize) -> i32
    requires some { 0 < count }
    requires fits { FitsSigned w32 (low +ℤ (pos count -ℤ pos 1)) }
    ensures { result ≡ low +ℤ (pos count -ℤ pos 1) }
{
    (i64::from(low) + (count as i64 - 1)) as i32
}

/// Writes the operands of a tableswitch at an offset of the code (JVMS 6.5).
fn put_table(
    writer: &mut Writer,
    pc: u16,
    default: u16,
    low: i32,
    targets: &[u16],
) -> Result<(), AllocError>
    requires some { 0 < length targets.now }
    requires fits { FitsSigned w32 (low +ℤ (pos (length targets.now) -ℤ pos 1)) }
    ensures { OnOk result (writer.new ≡ writer.old ++ table_text pc default low targets.now) }
{
    put_padding(writer, pc)?;
    put_s4(writer, branch_offset(pc, default))?;
    put_s4(writer, low)?;
    put_s4(writer, high_of(low, targets.len()))?;
    put_targets(writer, pc, targets)
}

/// Writes the operands of a lookupswitch at an offset of the code (JVMS 6.5).
fn put_lookup(
    writer: &mut Writer,
    pc: u16,
    default: u16,
    cases: &[(i32, u16)],
) -> Result<(), AllocError>
    requires { length cases.now < 2 ^ 32 }
    ensures { OnOk result (writer.new ≡ writer.old ++ lookup_text pc default cases.now) }
{
    put_padding(writer, pc)?;
    put_s4(writer, branch_offset(pc, default))?;
    writer.put_u4(cases.len() as u32)?;
    put_cases(writer, pc, cases)
}

/// Writes the operands of an instruction of a form, under wide or not, at an offset of the code. What they
/// name stands at an index of the pool.
pub fn put_arg(
    writer: &mut Writer,
    form: Form,
    wide: bool,
    pc: u16,
    arg: &Arg,
    index: u16,
) -> Result<(), AllocError>
    requires { FitsArg form wide pc arg.now index }
    ensures { OnOk result (writer.new ≡ writer.old ++ operand_text form wide pc arg.now index) }
{
    let narrow = is_narrow(form, wide);
    match arg {
        Arg::Nothing | Arg::Dynamic => Ok(()),
        Arg::Local(local) => put_small(writer, narrow, *local),
        Arg::Small(value) => put_signed(writer, narrow, *value),
        Arg::Inc(local, by) => {
            put_small(writer, narrow, *local)?;
            put_signed(writer, narrow, *by)
        }
        Arg::Constant(_) => put_small(writer, narrow, index),
        Arg::Class(_) | Arg::Field(_) => writer.put_u2(index),
        Arg::Method(method) => {
            writer.put_u2(index)?;
            put_behind_method(writer, form, method)
        }
        Arg::NewPrim(prim) => put_byte(writer, atype_of(*prim)),
        Arg::Multi(_, dims) => {
            writer.put_u2(index)?;
            put_byte(writer, *dims)
        }
        Arg::Jump(target) => put_jump(writer, form, branch_offset(pc, *target)),
        Arg::Table {
            default,
            low,
            targets,
        } => put_table(writer, pc, *default, *low, targets.as_slice()),
        Arg::Lookup { default, cases } => put_lookup(writer, pc, *default, cases.as_slice()),
    }
}
