ghost use Rattle.std.specs.Prelude.{◌≡◌, ◌↔◌, ◌++◌, ◌∷◌, [], List, IsTrue, IfSome, IfNone};
ghost use Rattle.jv_types.specs.declared.frames.VType.{VType, Top};
ghost use Rattle.jv_table.specs.declared.code_tables.Cell.TheVariants.{Ref};
ghost use Rattle.jv_insn.specs.Kinds.{HoldsCell, is_reference};
ghost use Rattle.jv_typing.specs.Parts.{LeavesCell, LeavesCells};

use crate::words::is_reference;
use jv_table::Cell;
use jv_types::VType;

/// The words below a word that stands at the top of a stack.
fn below_word<'a>(stack: &'a [VType], word: &VType) -> Option<&'a [VType]>
    ensures found { IfSome result (λ below. stack.now ≡ below.now ++ word.now ∷ []) }
    ensures none { IfNone result ((below : List VType) → stack.now ≡ below ++ word.now ∷ [] → ⊥) }
{
    let (top, below) = stack.split_last()?;
    if top.is(word) { Some(below) } else { None }
}

/// The words below a reference that stands at the top of a stack.
fn below_reference(stack: &[VType]) -> Option<&[VType]>
    ensures found { IfSome result (λ below. LeavesCell Ref stack.now below.now) }
    ensures none { IfNone result ((below : List VType) → LeavesCell Ref stack.now below → ⊥) }
{
    let (top, below) = stack.split_last()?;
    if is_reference(top) { Some(below) } else { None }
}

/// The words below a word of this type, where Top stands on it.
fn below_two<'a>(stack: &'a [VType], word: &VType) -> Option<&'a [VType]>
    ensures found { IfSome result (λ below. stack.now ≡ below.now ++ word.now ∷ Top ∷ []) }
    ensures none { IfNone result ((below : List VType) → stack.now ≡ below ++ word.now ∷ Top ∷ [] → ⊥) }
{
    match below_word(stack, &VType::Top) {
        Some(first) => below_word(first, word),
        None => None,
    }
}

/// The words below a cell that stands at the top of a stack.
fn below_cell(cell: Cell, stack: &[VType]) -> Option<&[VType]>
    ensures found { IfSome result (λ below. LeavesCell cell stack.now below.now) }
    ensures none { IfNone result ((below : List VType) → LeavesCell cell stack.now below → ⊥) }
{
    match cell {
        Cell::Int => below_word(stack, &VType::Integer),
        Cell::Float => below_word(stack, &VType::Float),
        Cell::Long => below_two(stack, &VType::Long),
        Cell::Double => below_two(stack, &VType::Double),
        Cell::Ref => below_reference(stack),
        Cell::Null => below_word(stack, &VType::Null),
    }
}

/// Whether words hold a cell, and nothing else.
pub fn holds_cell(cell: Cell, words: &[VType]) -> bool
    ensures { IsTrue result ↔ HoldsCell cell words.now }
{
    match below_cell(cell, words) {
        Some(below) => below.is_empty(),
        None => false,
    }
}

/// The words below cells that stand at the top of a stack, the last one on top.
pub fn below_cells<'a>(cells: &[Cell], stack: &'a [VType]) -> Option<&'a [VType]>
    ensures found { IfSome result (λ below. LeavesCells cells.now stack.now below.now) }
    ensures none { IfNone result ((below : List VType) → LeavesCells cells.now stack.now below → ⊥) }
{
    let mut left = cells;
    let mut below = stack;
    while let Some((cell, rest)) = left.split_last() {
        match below_cell(*cell, below) {
            Some(under) => {
                below = under;
                left = rest;
            }
            None => return None,
        }
    }
    Some(below)
}
