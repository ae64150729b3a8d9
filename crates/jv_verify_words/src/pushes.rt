ghost use Rattle.std.specs.Prelude.{◌≡◌, ◌≤◌, ◌<◌, ◌++◌, length, OnOk, IfOk, Err};
ghost use Rattle.jv_typing.specs.declared.no_typing.NoTyping.TheVariants as none;
ghost use Rattle.jv_verify_words.specs.Parts.{number_words, numbers_words};

use jv_table::Cell;
use jv_types::{Seq, VType};
use jv_typing::{NoTyping, push_copies};
use std::alloc::{AllocError, Global};

/// Puts the words of a number at the end.
fn push_number(words: &mut Vec<VType>, cell: Cell) -> Result<(), AllocError>
    ensures { OnOk result (words.new.items ≡ words.old.items ++ number_words cell) }
{
    match cell {
        Cell::Int => words.push(VType::Integer)?,
        Cell::Float => words.push(VType::Float)?,
        Cell::Long => {
            words.push(VType::Long)?;
            words.push(VType::Top)?;
        }
        Cell::Double => {
            words.push(VType::Double)?;
            words.push(VType::Top)?;
        }
        Cell::Ref | Cell::Null => {}
    }
    Ok(())
}

/// Puts the words of numbers at the end.
fn push_numbers(words: &mut Vec<VType>, cells: &[Cell]) -> Result<(), AllocError>
    ensures { OnOk result (words.new.items ≡ words.old.items ++ numbers_words cells.now) }
{
    for cell in cells {
        push_number(words, *cell)?;
    }
    Ok(())
}

/// The stack of these words and of numbers on top of them, where it has at most so many words.
pub fn stack_after(
    alloc: Global,
    below: &[VType],
    gives: &[Cell],
    max_stack: u16,
) -> Result<Seq<VType>, NoTyping>
    ensures ok { IfOk result (λ stack. stack ≡ below.now ++ numbers_words gives.now) }
    ensures room { IfOk result (λ stack. length stack ≤ max_stack) }
    ensures rule { result ≡ Err none.Rule → max_stack < length (below.now ++ numbers_words gives.now) }
{
    let room = gives.len().saturating_mul(2);
    let mut words = Vec::with_capacity(alloc, below.len().saturating_add(room))?;
    push_copies(alloc, &mut words, below)?;
    push_numbers(&mut words, gives)?;
    if words.len() <= usize::from(max_stack) {
        Ok(Seq::from_vec(words))
    } else {
        Err(NoTyping::Rule)
    }
}
