ghost use Rattle.std.specs.Prelude.{◌≡◌, ◌++◌, map, replicate, IfOk, OnOk};
ghost use Rattle.jv_table.specs.declared.code_tables.Cell.TheVariants.{Int};
ghost use Rattle.jv_insn.specs.Effects.{desc_cell, effect_of, op_row, row_takes};
ghost use Rattle.jv_verify_refs.specs.Steps.Parts.{field_cells, method_cells};

use jv_table::{Cell, opcode, ops};
use jv_types::{Arg, Desc, FieldRef, Insn, MethodRef, Prim};
use std::alloc::{AllocError, Global};

/// The cell of a value of a type (JVMS 2.11.1).
fn desc_cell(desc: &Desc) -> Cell
    ensures { result ≡ desc_cell desc.now }
{
    match desc {
        Desc::Prim(Prim::Float) => Cell::Float,
        Desc::Prim(Prim::Double) => Cell::Double,
        Desc::Prim(Prim::Long) => Cell::Long,
        Desc::Prim(_) => Cell::Int,
        Desc::Ref(_) => Cell::Ref,
    }
}

/// Adds the cells of values of these types at the end.
fn push_cells(cells: &mut Vec<Cell>, descs: &[Desc]) -> Result<(), AllocError>
    ensures { OnOk result (cells.new.items ≡ cells.old.items ++ map desc_cell descs.now) }
{
    for desc in descs {
        cells.push(desc_cell(desc))?;
    }
    Ok(())
}

/// The cells that an instruction takes which reads or writes a field.
fn field_cells(alloc: Global, op: u8, field: &FieldRef) -> Result<Vec<Cell>, AllocError>
    ensures { IfOk result (λ cells. cells.items ≡ field_cells op field.now) }
{
    let mut cells = Vec::new(alloc);
    if op == ops::GETFIELD || op == ops::PUTFIELD {
        cells.push(Cell::Ref)?;
    }
    if op == ops::PUTSTATIC || op == ops::PUTFIELD {
        cells.push(desc_cell(&field.desc))?;
    }
    Ok(cells)
}

/// The cells that an instruction takes which calls a method.
fn method_cells(alloc: Global, op: u8, method: &MethodRef) -> Result<Vec<Cell>, AllocError>
    ensures { IfOk result (λ cells. cells.items ≡ method_cells op method.now) }
{
    let mut cells = Vec::new(alloc);
    if op != ops::INVOKESTATIC {
        cells.push(Cell::Ref)?;
    }
    push_cells(&mut cells, method.desc.params.as_slice())?;
    Ok(cells)
}

/// The cells that an instruction takes by the row of its opcode.
fn row_cells(alloc: Global, op: u8) -> Result<Vec<Cell>, AllocError>
    ensures { IfOk result (λ cells. cells.items ≡ row_takes (op_row op)) }
{
    match opcode(op) {
        None => Ok(Vec::new(alloc)),
        Some(row) => Vec::from_slice(alloc, row.takes),
    }
}

/// So many cells of ints.
fn int_cells(alloc: Global, count: u8) -> Result<Vec<Cell>, AllocError>
    ensures { IfOk result (λ cells. cells.items ≡ replicate count Int) }
{
    let mut cells = Vec::new(alloc);
    for _place in 0..count {
        cells.push(Cell::Int)?;
    }
    Ok(cells)
}

/// The cells that an instruction takes from the stack, the last one from its top (JVMS 6.5). Only memory can
/// be wanting.
pub fn cells_taken(alloc: Global, insn: &Insn) -> Result<Vec<Cell>, AllocError>
    ensures { IfOk result (λ cells. cells.items ≡ (effect_of insn.now).takes) }
{
    match &insn.arg {
        Arg::Constant(_) => Ok(Vec::new(alloc)),
        Arg::Field(field) => field_cells(alloc, insn.op, field),
        Arg::Method(method) => method_cells(alloc, insn.op, method),
        Arg::Multi(_, dims) => int_cells(alloc, *dims),
        _ => row_cells(alloc, insn.op),
    }
}
