ghost use Rattle.std.specs.Prelude.{◌≡◌, ◌<◌, ◌++◌, length, None, Some, IfOk, OnOk};
ghost use Rattle.jv_insn.specs.Entries.{entry_of, put_named, put_all, Grows};
ghost use Rattle.jv_insn.specs.Encoding.{form_of, index_in, insn_text, insns_text, MayEncode, DecodesTo};
ghost use Rattle.jv_insn.specs.Steps.Writing.{MayPut};

use crate::entries::index_of;
use crate::fault::EncodeRefusal;
use crate::writing::{put_arg, put_head};
use jv_bytes::Writer;
use jv_pool::PoolWriter;
use jv_table::{Form, opcode};
use jv_types::{Body, Insn};
use std::alloc::Global;

/// The form of an opcode. One that has no row has no operands.
pub fn form_of(op: u8) -> Form
    ensures { result ≡ form_of op }
{
    match opcode(op) {
        Some(row) => row.form,
        None => Form::Nothing,
    }
}

/// Writes an instruction at an offset of the code, and adds what it names to the pool.
fn put_insn(
    alloc: Global,
    writer: &mut Writer,
    pool: &mut PoolWriter,
    pc: u16,
    insn: &Insn,
) -> Result<(), EncodeRefusal>
    requires { MayPut pool.old pc insn.now }
    ensures added { OnOk result (put_named (entry_of insn.now.arg) pool.old ≡ Some (index_in pool.new insn.now.arg, pool.new)) }
    ensures small { OnOk result (index_in pool.new insn.now.arg < 65536) }
    ensures text { OnOk result (writer.new ≡ writer.old ++ insn_text pool.new pc insn.now) }
    ensures full { result ≡ Err EncodeRefusal.PoolFull → put_named (entry_of insn.now.arg) pool.old ≡ None }
    ensures never_long { result ≡ Err EncodeRefusal.TooLong → ⊥ }
    ensures grown { Grows pool.old pool.new }
{
    let index = index_of(alloc, pool, &insn.arg)?;
    put_head(writer, insn.wide, insn.op)?;
    put_arg(writer, form_of(insn.op), insn.wide, pc, &insn.arg, index)?;
    Ok(())
}

/// The code of a body over a constant pool, to which it adds what the instructions name (JVMS 4.7.3, 6.5).
/// Some code spells the body over some pool, no part of its operands is left out, and the constant of each
/// ldc stands in the pool at an index of one byte. With each exception table that names the body's handlers the
/// code decodes to the same body, over the pool and whatever that grows to. It is refused `PoolFull` exactly
/// where an item finds no room, and never `TooLong`. After a refusal, and where memory is wanting, the pool has
/// at most grown.
pub fn encode(alloc: Global, body: &Body, pool: &mut PoolWriter) -> Result<Vec<u8>, EncodeRefusal>
    requires { MayEncode pool.old body.now }
    ensures decodes { IfOk result (λ code. DecodesTo pool.new code.items body.now) }
    ensures text { IfOk result (λ code. code.items ≡ insns_text pool.new body.now.insns) }
    ensures length { IfOk result (λ code. length code.items ≡ body.now.length) }
    ensures added { OnOk result (put_all body.now.insns pool.old ≡ Some pool.new) }
    ensures full { result ≡ Err EncodeRefusal.PoolFull → put_all body.now.insns pool.old ≡ None }
    ensures never_long { result ≡ Err EncodeRefusal.TooLong → ⊥ }
    ensures grown { Grows pool.old pool.new }
{
    let mut writer = Writer::new(alloc);
    for row in body.insns.as_slice() {
        put_insn(alloc, &mut writer, pool, row.0, &row.1)?;
    }
    Ok(writer.done())
}
