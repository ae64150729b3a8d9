ghost use Rattle.std.specs.Prelude.{◌≡◌, ◌<◌, ◌++◌, map, replicate, IfOk, OnOk};
ghost use Rattle.jv_table.specs.declared.code_tables.Cell.TheVariants.{Int};
ghost use Rattle.jv_insn.specs.Effects.{cell_width, cells_given, cells_taken, const_cell, desc_cell, op_row, result_cells, row_gives, row_takes, width_of};
ghost use Rattle.jv_leaving.specs.Words.{field_cells, method_cells, spans};

use jv_table::{Cell, opcode, ops};
use jv_types::{Arg, Const, Desc, FieldRef, Insn, MethodRef, Prim};
use std::alloc::{AllocError, Global};

/// The cell of a value of a type (JVMS 2.11.1).
fn desc_cell(desc: &Desc) -> Cell
    ensures { result ≡ desc_cell desc.now }
{
    match desc {
        Desc::Prim(Prim::Float) => Cell::Float,
        Desc::Prim(Prim::Double) => Cell::Double,
        Desc::Prim(Prim::Long) => Cell::Long,
        Desc::Prim(_) => Cell::Int,
        Desc::Ref(_) => Cell::Ref,
    }
}

/// The cell of a constant that is loaded.
fn const_cell(constant: &Const) -> Cell
    ensures { result ≡ const_cell constant.now }
{
    match constant {
        Const::Int(_) => Cell::Int,
        Const::Float(_) => Cell::Float,
        Const::Long(_) => Cell::Long,
        Const::Double(_) => Cell::Double,
        _ => Cell::Ref,
    }
}

/// Adds the cells of values of these types at the end.
fn push_cells(cells: &mut Vec<Cell>, descs: &[Desc]) -> Result<(), AllocError>
    ensures { OnOk result (cells.new.items ≡ cells.old.items ++ map desc_cell descs.now) }
{
    for desc in descs {
        cells.push(desc_cell(desc))?;
    }
    Ok(())
}

/// The cells that an instruction takes which reads or writes a field.
fn field_cells(alloc: Global, op: u8, field: &FieldRef) -> Result<Vec<Cell>, AllocError>
    ensures { IfOk result (λ cells. cells.items ≡ field_cells op field.now) }
{
    let mut cells = Vec::new(alloc);
    if op == ops::GETFIELD || op == ops::PUTFIELD {
        cells.push(Cell::Ref)?;
    }
    if op == ops::PUTSTATIC || op == ops::PUTFIELD {
        cells.push(desc_cell(&field.desc))?;
    }
    Ok(cells)
}

/// The cells that an instruction takes which calls a method.
fn method_cells(alloc: Global, op: u8, method: &MethodRef) -> Result<Vec<Cell>, AllocError>
    ensures { IfOk result (λ cells. cells.items ≡ method_cells op method.now) }
{
    let mut cells = Vec::new(alloc);
    if op != ops::INVOKESTATIC {
        cells.push(Cell::Ref)?;
    }
    push_cells(&mut cells, method.desc.params.as_slice())?;
    Ok(cells)
}

/// The cells that an instruction takes by the row of its opcode.
fn row_cells(alloc: Global, op: u8) -> Result<Vec<Cell>, AllocError>
    ensures { IfOk result (λ cells. cells.items ≡ row_takes (op_row op)) }
{
    match opcode(op) {
        None => Ok(Vec::new(alloc)),
        Some(row) => Vec::from_slice(alloc, row.takes),
    }
}

/// So many cells of ints.
fn int_cells(alloc: Global, count: u8) -> Result<Vec<Cell>, AllocError>
    ensures { IfOk result (λ cells. cells.items ≡ replicate count Int) }
{
    let mut cells = Vec::new(alloc);
    for _place in 0..count {
        cells.push(Cell::Int)?;
    }
    Ok(cells)
}

/// The cells that an instruction takes from the stack, the last one from its top (JVMS 6.5). Only memory can
/// be wanting.
pub fn cells_taken(alloc: Global, insn: &Insn) -> Result<Vec<Cell>, AllocError>
    ensures { IfOk result (λ cells. cells.items ≡ cells_taken insn.now.op insn.now.arg) }
{
    match &insn.arg {
        Arg::Constant(_) => Ok(Vec::new(alloc)),
        Arg::Field(field) => field_cells(alloc, insn.op, field),
        Arg::Method(method) => method_cells(alloc, insn.op, method),
        Arg::Multi(_, dims) => int_cells(alloc, *dims),
        _ => row_cells(alloc, insn.op),
    }
}

/// How many words a cell takes (JVMS 2.11.1).
pub fn cell_width(cell: Cell) -> usize
    ensures { result ≡ cell_width cell }
{
    match cell {
        Cell::Long => 2,
        Cell::Double => 2,
        _ => 1,
    }
}

/// How many words cells take.
pub fn width_of(cells: &[Cell]) -> usize
    ensures { result ≡ width_of cells.now }
{
    let mut width = 0;
    for cell in cells {
        width += cell_width(*cell);
    }
    width
}

/// How many words the result of a method takes.
fn result_width(result_type: &Option<Desc>) -> usize
    ensures { result ≡ width_of (result_cells result_type.now) }
{
    match result_type {
        None => 0,
        Some(desc) => cell_width(desc_cell(desc)),
    }
}

/// How many words a field gives that is read; one that is written gives none.
fn field_width(op: u8, field: &FieldRef) -> usize
    ensures { result ≡ width_of (cells_given op (Arg.Field field.now)) }
{
    if op == ops::PUTSTATIC || op == ops::PUTFIELD {
        0
    } else {
        cell_width(desc_cell(&field.desc))
    }
}

/// How many words an instruction gives by the row of its opcode.
fn row_width(op: u8) -> usize
    ensures { result ≡ width_of (row_gives (op_row op)) }
{
    match opcode(op) {
        None => 0,
        Some(row) => width_of(row.gives),
    }
}

/// How many words an instruction gives to the stack (JVMS 6.5).
pub fn width_given(insn: &Insn) -> usize
    ensures { result ≡ width_of (cells_given insn.now.op insn.now.arg) }
{
    match &insn.arg {
        Arg::Constant(constant) => cell_width(const_cell(constant)),
        Arg::Field(field) => field_width(insn.op, field),
        Arg::Method(method) => result_width(&method.desc.result),
        Arg::Multi(_, _) => 1,
        _ => row_width(insn.op),
    }
}

/// Whether one of the cells, written from a local variable on, has this local variable.
pub fn spans(first: usize, cells: &[Cell], local: usize) -> bool
    requires { first < 65536 }
    ensures { result ≡ spans first cells.now local }
{
    cells
        .iter()
        .any(|cell| first <= local && local < first + cell_width(*cell))
}
