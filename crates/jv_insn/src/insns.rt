ghost use Rattle.std.specs.Prelude.{◌≡◌, ◌<◌, ◌↔◌, IsTrue, IfOk};
ghost use Rattle.jv_insn.specs.Effects.{local_of};
ghost use Rattle.jv_insn.specs.Meanings.{has_local, IsInsn};
ghost use Rattle.jv_insn.specs.Steps.Rows.{AreRows, AreInsns};
ghost use Rattle.jv_names.specs.Finding.{Finds};

use crate::locals::{is_load, is_store, local_of};
use crate::operands::arg_of;
use crate::written::Written;
use jv_pool::Pool;
use jv_read::ReadFault;
use jv_table::{opcode, ops};
use jv_types::{Arg, Insn};
use std::alloc::{AllocError, Global};

/// Whether an instruction names a local variable.
fn has_local(op: u8) -> bool
    ensures { result ≡ has_local op }
{
    is_load(op) || is_store(op) || matches!(op, ops::IINC | ops::RET)
}

/// Whether the local variable that an instruction names, if it names one, is among so many.
fn fits_locals(op: u8, arg: &Arg, max_locals: u16) -> bool
    ensures { IsTrue result ↔ (IsTrue (has_local op) → local_of op arg.now < max_locals) }
{
    !has_local(op) || local_of(op, arg) < max_locals
}

/// What an instruction is that is written at an offset of the code.
fn insn_of(
    alloc: Global,
    pool: &Pool,
    max_locals: u16,
    rows: &[(u16, Written)],
    pc: u16,
    written: &Written,
) -> Result<Insn, ReadFault>
    requires { AreRows rows.now }
    ensures { Finds (λ insn. IsInsn pool.now max_locals rows.now pc written.now insn) result }
{
    let Some(row) = opcode(written.op) else {
        return Err(ReadFault::Bad);
    };
    match arg_of(
        alloc,
        pool,
        rows,
        pc,
        written.op,
        row.form,
        &written.operands,
    ) {
        Ok(arg) => {
            if fits_locals(written.op, &arg, max_locals) {
                Ok(Insn {
                    op: written.op,
                    wide: written.wide,
                    arg,
                })
            } else {
                Err(ReadFault::Bad)
            }
        }
        Err(e) => Err(e),
    }
}

/// What the instructions are that are written, or the offset of the first one that is none.
pub fn insns_of(
    alloc: Global,
    pool: &Pool,
    max_locals: u16,
    rows: &[(u16, Written)],
) -> Result<Result<Vec<(u16, Insn)>, u16>, AllocError>
    requires { AreRows rows.now }
    ensures { IfOk result (λ insns. AreInsns pool.now max_locals rows.now insns) }
{
    let mut insns = Vec::new(alloc);
    for row in rows {
        match insn_of(alloc, pool, max_locals, rows, row.0, &row.1) {
            Ok(insn) => insns.push((row.0, insn))?,
            Err(ReadFault::Bad) => return Ok(Err(row.0)),
            Err(ReadFault::Memory) => return Err(AllocError),
        }
    }
    Ok(Ok(insns))
}
