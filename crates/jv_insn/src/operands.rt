ghost use Rattle.std.specs.Prelude.{◌≡◌, ◌≤◌, ◌↔◌, IsTrue, Some};
ghost use Rattle.std.specs.Ordering.{nat_cmp};
ghost use Rattle.jv_table.specs.Rows.{row_of};
ghost use Rattle.jv_table.specs.CodeRows.{newarray_rows};
ghost use Rattle.jv_table.specs.declared.code_tables.Form.TheVariants as forms;
ghost use Rattle.jv_desc.specs.Texts.{prim_letter, ref_dims};
ghost use Rattle.jv_insn.specs.Meanings.{FitsOp, MayCall, IsCalled, NamesLoad, NamesArg, NamesCalled, NamesSite, NamesPrim, NamesMulti, NamesJump, NamesTable, NamesLookup, NamesOperands};
ghost use Rattle.jv_insn.specs.Steps.Rows.{AreRows};
ghost use Rattle.jv_names.specs.Finding.{Finds};
ghost use Rattle.jv_insn.specs.Steps.Finding.{FindsSome};

use crate::constants::const_at;
use crate::places::{cases_at, target_at, targets_at};
use crate::written::{Operands, Written};
use jv_desc::{arg_words, prim_of};
use jv_names::{field_at, method_at, type_at};
use jv_pool::{Pool, PoolItem};
use jv_read::ReadFault;
use jv_table::{Form, newarray_code, ops};
use jv_types::{Arg, MethodRef, Prim, RefType};
use std::alloc::Global;

/// Whether a type has at least so many dimensions.
fn has_dims(of: &RefType, dims: u8) -> bool
    ensures { IsTrue result ↔ (dims ≤ ref_dims of.now) }
{
    if dims == 0 {
        return true;
    }
    match of {
        RefType::Class(_) => false,
        RefType::PrimArray(_) => dims == 1,
        RefType::Array(item) => has_dims(item.get(), dims - 1),
    }
}

/// Whether an instruction may name a type: a `new` no array, and an anewarray one of at most 254
/// dimensions.
fn fits_op(op: u8, of: &RefType) -> bool
    ensures { IsTrue result ↔ FitsOp op of.now }
{
    match op {
        ops::NEW => !has_dims(of, 1),
        ops::ANEWARRAY => !has_dims(of, 255),
        _ => true,
    }
}

/// The primitive type of a code of newarray.
fn prim_at(code: u8) -> Option<Prim>
    ensures { FindsSome (λ prim. row_of nat_cmp code newarray_rows ≡ Some (prim_letter prim)) result }
{
    prim_of(newarray_code(code)?)
}

/// The constant that a load names.
fn load_arg(alloc: Global, pool: &Pool, index: u16, two: bool) -> Result<Arg, ReadFault>
    ensures { Finds (λ arg. NamesLoad pool.now index two arg) result }
{
    match const_at(alloc, pool, index, two) {
        Ok(constant) => Ok(Arg::Constant(constant)),
        Err(e) => Err(e),
    }
}

/// The class or array type that an instruction names.
fn class_arg(alloc: Global, pool: &Pool, op: u8, index: u16) -> Result<Arg, ReadFault>
    ensures { Finds (λ arg. NamesArg forms.Class pool.now op index arg) result }
{
    match type_at(alloc, pool, index) {
        Ok(of) => {
            if fits_op(op, &of) {
                Ok(Arg::Class(of))
            } else {
                Err(ReadFault::Bad)
            }
        }
        Err(e) => Err(e),
    }
}

/// The field that an instruction names.
fn field_arg(alloc: Global, pool: &Pool, op: u8, index: u16) -> Result<Arg, ReadFault>
    ensures { Finds (λ arg. NamesArg forms.Field pool.now op index arg) result }
{
    match field_at(alloc, pool, index) {
        Ok(field) => Ok(Arg::Field(field)),
        Err(e) => Err(e),
    }
}

/// Whether an instruction other than invokeinterface may name a method.
fn may_call(op: u8, method: &MethodRef) -> bool
    ensures { IsTrue result ↔ MayCall op method.now }
{
    op != ops::INVOKEVIRTUAL || !method.interface
}

/// The method that an instruction other than invokeinterface names.
fn method_arg(alloc: Global, pool: &Pool, op: u8, index: u16) -> Result<Arg, ReadFault>
    ensures { Finds (λ arg. NamesArg forms.Method pool.now op index arg) result }
{
    match method_at(alloc, pool, index) {
        Ok(method) => {
            if may_call(op, &method) {
                Ok(Arg::Method(method))
            } else {
                Err(ReadFault::Bad)
            }
        }
        Err(e) => Err(e),
    }
}

/// What an index of the pool names, by the form of the opcode.
fn named_arg(alloc: Global, pool: &Pool, form: Form, op: u8, index: u16) -> Result<Arg, ReadFault>
    ensures { Finds (λ arg. NamesArg form pool.now op index arg) result }
{
    match form {
        Form::Load1 | Form::Load2 => load_arg(alloc, pool, index, false),
        Form::LoadTwo => load_arg(alloc, pool, index, true),
        Form::Class => class_arg(alloc, pool, op, index),
        Form::Field => field_arg(alloc, pool, op, index),
        Form::Method => method_arg(alloc, pool, op, index),
        _ => Err(ReadFault::Bad),
    }
}

/// Whether an invokeinterface with these bytes behind its index may name a method.
fn is_called(words: u8, last: u8, method: &MethodRef) -> bool
    ensures { IsTrue result ↔ IsCalled words last method.now }
{
    method.interface && last == 0 && arg_words(&method.desc, true) == u32::from(words)
}

/// The method that an invokeinterface names.
fn called_arg(alloc: Global, pool: &Pool, index: u16, words: u8, last: u8) -> Result<Arg, ReadFault>
    ensures { Finds (λ arg. NamesCalled pool.now index words last arg) result }
{
    match method_at(alloc, pool, index) {
        Ok(method) => {
            if is_called(words, last, &method) {
                Ok(Arg::Method(method))
            } else {
                Err(ReadFault::Bad)
            }
        }
        Err(e) => Err(e),
    }
}

/// The call site that an invokedynamic names.
fn site_arg(pool: &Pool, index: u16) -> Result<Arg, ReadFault>
    ensures { Finds (λ arg. NamesSite pool.now index arg) result }
{
    match pool.item(index) {
        Some(PoolItem::InvokeDynamic(_, _)) => Ok(Arg::Dynamic),
        _ => Err(ReadFault::Bad),
    }
}

/// The primitive type of a newarray.
fn prim_arg(code: u8) -> Result<Arg, ReadFault>
    ensures { Finds (λ arg. NamesPrim code arg) result }
{
    match prim_at(code) {
        Some(prim) => Ok(Arg::NewPrim(prim)),
        None => Err(ReadFault::Bad),
    }
}

/// The array type of a multianewarray, and how many of its dimensions are made.
fn multi_arg(alloc: Global, pool: &Pool, index: u16, dims: u8) -> Result<Arg, ReadFault>
    ensures { Finds (λ arg. NamesMulti pool.now index dims arg) result }
{
    match type_at(alloc, pool, index) {
        Ok(of) => {
            if has_dims(&of, dims) {
                Ok(Arg::Multi(of, dims))
            } else {
                Err(ReadFault::Bad)
            }
        }
        Err(e) => Err(e),
    }
}

/// Where a jump leads.
fn jump_arg(rows: &[(u16, Written)], pc: u16, offset: i32) -> Result<Arg, ReadFault>
    requires { AreRows rows.now }
    ensures { Finds (λ arg. NamesJump rows.now pc offset arg) result }
{
    match target_at(rows, pc, offset) {
        Some(target) => Ok(Arg::Jump(target)),
        None => Err(ReadFault::Bad),
    }
}

/// Where a tableswitch leads.
fn table_arg(
    alloc: Global,
    rows: &[(u16, Written)],
    pc: u16,
    default: i32,
    low: i32,
    offsets: &[i32],
) -> Result<Arg, ReadFault>
    requires { AreRows rows.now }
    ensures { Finds (λ arg. NamesTable rows.now pc default low offsets.now arg) result }
{
    let Some(default) = target_at(rows, pc, default) else {
        return Err(ReadFault::Bad);
    };
    match targets_at(alloc, rows, pc, offsets) {
        Ok(targets) => Ok(Arg::Table {
            default,
            low,
            targets,
        }),
        Err(e) => Err(e),
    }
}

/// Where a lookupswitch leads.
fn lookup_arg(
    alloc: Global,
    rows: &[(u16, Written)],
    pc: u16,
    default: i32,
    cases: &[(i32, i32)],
) -> Result<Arg, ReadFault>
    requires { AreRows rows.now }
    ensures { Finds (λ arg. NamesLookup rows.now pc default cases.now arg) result }
{
    let Some(default) = target_at(rows, pc, default) else {
        return Err(ReadFault::Bad);
    };
    match cases_at(alloc, rows, pc, cases) {
        Ok(cases) => Ok(Arg::Lookup { default, cases }),
        Err(e) => Err(e),
    }
}

/// What the operands of an instruction name, which is written at an offset of the code.
pub fn arg_of(
    alloc: Global,
    pool: &Pool,
    rows: &[(u16, Written)],
    pc: u16,
    op: u8,
    form: Form,
    operands: &Operands,
) -> Result<Arg, ReadFault>
    requires { AreRows rows.now }
    ensures { Finds (λ arg. NamesOperands pool.now rows.now pc op form operands.now arg) result }
{
    match operands {
        Operands::Nothing => Ok(Arg::Nothing),
        Operands::Local(local) => Ok(Arg::Local(*local)),
        Operands::Small(value) => Ok(Arg::Small(*value)),
        Operands::Inc(local, by) => Ok(Arg::Inc(*local, *by)),
        Operands::Index(index) => named_arg(alloc, pool, form, op, *index),
        Operands::Called(index, words, last) => called_arg(alloc, pool, *index, *words, *last),
        Operands::Site(index, _, _) => site_arg(pool, *index),
        Operands::NewPrim(code) => prim_arg(*code),
        Operands::Multi(index, dims) => multi_arg(alloc, pool, *index, *dims),
        Operands::Jump(offset) => jump_arg(rows, pc, *offset),
        Operands::Table {
            default,
            low,
            offsets,
        } => table_arg(alloc, rows, pc, *default, *low, offsets.as_slice()),
        Operands::Lookup { default, cases } => {
            lookup_arg(alloc, rows, pc, *default, cases.as_slice())
        }
    }
}
