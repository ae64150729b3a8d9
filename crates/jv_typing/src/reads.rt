ghost use Rattle.std.specs.Prelude.{◌≡◌, ◌↔◌, IsTrue, All, length};
ghost use Rattle.jv_insn.specs.Kinds.{cell_words};
ghost use Rattle.jv_typing.specs.Parts.{HoldsFrom};

use crate::pops::holds_cell;
use jv_table::Cell;
use jv_types::VType;

/// How many words a cell takes.
fn width(cell: Cell) -> usize
    ensures { result ≡ length (cell_words cell) }
{
    match cell {
        Cell::Long | Cell::Double => 2,
        Cell::Int | Cell::Float | Cell::Ref | Cell::Null => 1,
    }
}

/// Whether the local variables from one on hold a cell.
pub fn holds_from(locals: &[VType], local: u16, cell: Cell) -> bool
    ensures { IsTrue result ↔ HoldsFrom locals.now local cell }
{
    let (_, from) = locals.split_at(locals.len().min(usize::from(local)));
    let (words, _) = from.split_at(from.len().min(width(cell)));
    holds_cell(cell, words)
}

/// Whether the local variables from one on hold each of the cells.
pub fn hold_from(locals: &[VType], local: u16, cells: &[Cell]) -> bool
    ensures { IsTrue result ↔ All (HoldsFrom locals.now local) cells.now }
{
    for cell in cells {
        if !holds_from(locals, local, *cell) {
            return false;
        }
    }
    true
}
