//! Parts of a step: cells on a stack and in local variables, and what is put there (JVMS 4.10.1.4, 4.10.1.7).

use jv_table::Cell;
use jv_types::{Seq, VType};
use jv_typing::{
    NoTyping, below_cells, copied, hold_from, holds_cell, holds_from, is_reference, is_wide,
    push_copies, stack_with, stored,
};
use std::alloc::{AllocError, Global};
use std::test::Fail;
use tests_shapes::{vtype_of, words_of};
use tests_text::{part, word};

/// The cell of a name.
fn cell_of(name: &str) -> Option<Cell> {
    match name {
        "int" => Some(Cell::Int),
        "float" => Some(Cell::Float),
        "long" => Some(Cell::Long),
        "double" => Some(Cell::Double),
        "ref" => Some(Cell::Ref),
        "null" => Some(Cell::Null),
        _ => None,
    }
}

/// The cells of names between commas. Another name stands for none.
fn cells_of(alloc: Global, text: &str) -> Result<Vec<Cell>, AllocError> {
    let mut cells = Vec::new(alloc);
    for name in text.split(',') {
        if let Some(cell) = cell_of(name) {
            cells.push(cell)?;
        }
    }
    Ok(cells)
}

/// Words, of which `-` stands for none.
fn some_words(alloc: Global, text: &str) -> Result<Seq<VType>, Fail> {
    words_of(alloc, if text == "-" { "" } else { text })
}

/// Whether what was found is the words of a text, or nothing where that is `none`.
fn are_words(alloc: Global, found: Option<&[VType]>, text: &str) -> Result<bool, Fail> {
    match found {
        None => Ok(text == "none"),
        Some(_) if text == "none" => Ok(false),
        Some(words) => Ok(words == some_words(alloc, text)?.as_slice()),
    }
}

/// A cell, words, and whether they hold it.
const HELD: &str = "\
int = int = yes
int = int int = no
int = float = no
int = - = no
float = float = yes
long = long = yes
long = top top = no
long = double = no
double = double = yes
ref = null = yes
ref = this = yes
ref = new@3 = yes
ref = a/C = yes
ref = [I = yes
ref = [[I = yes
ref = int = no
null = null = yes
null = a/C = no";

/// Whether the words of a line hold its cell as they must.
fn is_held(alloc: Global, line: &str) -> Result<bool, Fail> {
    let cell = cell_of(part(line, 0)).ok_or("a cell")?;
    let words = some_words(alloc, part(line, 1))?;
    Ok(holds_cell(cell, words.as_slice()) == (part(line, 2) == "yes"))
}

#[test]
fn tells_held_cells(rt: HostRuntime) -> Result<(), Fail> {
    for line in HELD.lines() {
        assert!(rt; is_held(rt.alloc(), line)?, "at {line}");
    }
    Ok(())
}

/// Cells and the number of a local variable, the local variables, and whether they hold each of the cells from that
/// one on.
const LOCALS: &str = "\
int 1 = float int = yes
int 0 = float int = no
long 0 = long int = yes
long 1 = long int = no
int 2 = long int = yes
int 3 = long int = no
long 0 = int = no
ref,null 0 = null = yes
ref,null 0 = a/C = no";

/// Whether local variables hold cells from one on.
fn hold(locals: &[VType], local: u16, cells: &[Cell]) -> bool {
    match cells {
        [cell] => holds_from(locals, local, *cell),
        _ => hold_from(locals, local, cells),
    }
}

/// Whether the local variables of a line hold its cells as they must.
fn is_local(alloc: Global, line: &str) -> Result<bool, Fail> {
    let row = part(line, 0);
    let local = word(row, 1).parse::<u16>()?;
    let cells = cells_of(alloc, word(row, 0))?;
    let locals = some_words(alloc, part(line, 1))?;
    Ok(hold(locals.as_slice(), local, cells.as_slice()) == (part(line, 2) == "yes"))
}

#[test]
fn tells_cells_of_locals(rt: HostRuntime) -> Result<(), Fail> {
    for line in LOCALS.lines() {
        assert!(rt; is_local(rt.alloc(), line)?, "at {line}");
    }
    Ok(())
}

/// Cells, a stack, and the words below these cells on it, or `none`.
const BELOW: &str = "\
int,long = null int long = null
int,long = null long int = none
ref = int a/C = int
- = int = int
double = int = none
double = double = -";

/// Whether the words below the cells of a line are as they must be.
fn is_below(alloc: Global, line: &str) -> Result<bool, Fail> {
    let cells = cells_of(alloc, part(line, 0))?;
    let stack = some_words(alloc, part(line, 1))?;
    are_words(
        alloc,
        below_cells(cells.as_slice(), stack.as_slice()),
        part(line, 2),
    )
}

#[test]
fn finds_words_below_cells(rt: HostRuntime) -> Result<(), Fail> {
    for line in BELOW.lines() {
        assert!(rt; is_below(rt.alloc(), line)?, "at {line}");
    }
    Ok(())
}

/// Whether what was made is the words of a text, or refused where that is `none`.
fn is_made(alloc: Global, made: Result<Seq<VType>, NoTyping>, text: &str) -> Result<bool, Fail> {
    match made {
        Err(NoTyping::Memory) => Ok(false),
        Err(NoTyping::Rule) => Ok(text == "none"),
        Ok(words) => are_words(alloc, Some(words.as_slice()), text),
    }
}

/// A stack, words that are put on it, how many words it may have, and the stack after that, or `none`.
const STACKS: &str = "\
int = long = 3 = int long
int = long = 2 = none
- = int = 1 = int
- = int = 0 = none
a/C = - = 1 = a/C";

/// Whether the stack of a line is as it must be.
fn is_stacked(alloc: Global, line: &str) -> Result<bool, Fail> {
    let max_stack = part(line, 2).parse::<u16>()?;
    let below = some_words(alloc, part(line, 0))?;
    let given = some_words(alloc, part(line, 1))?;
    let made = stack_with(alloc, below.as_slice(), given.as_slice(), max_stack);
    is_made(alloc, made, part(line, 3))
}

#[test]
fn puts_words_on_a_stack(rt: HostRuntime) -> Result<(), Fail> {
    for line in STACKS.lines() {
        assert!(rt; is_stacked(rt.alloc(), line)?, "at {line}");
    }
    Ok(())
}

/// Local variables, words that are stored, from which one on, and the local variables after that, or `none`.
const STORED: &str = "\
int int = long = 0 = long
int int int = long = 1 = int long
long int = int = 1 = top int int
long int = int = 0 = int top int
double float = int = 2 = double int
int = long = 0 = none
int = int = 1 = none";

/// Whether the local variables of a line are as they must be.
fn is_stored(alloc: Global, line: &str) -> Result<bool, Fail> {
    let local = part(line, 2).parse::<u16>()?;
    let locals = some_words(alloc, part(line, 0))?;
    let words = some_words(alloc, part(line, 1))?;
    let made = stored(alloc, locals.as_slice(), local, words.as_slice());
    is_made(alloc, made, part(line, 3))
}

#[test]
fn stores_words(rt: HostRuntime) -> Result<(), Fail> {
    for line in STORED.lines() {
        assert!(rt; is_stored(rt.alloc(), line)?, "at {line}");
    }
    Ok(())
}

/// Whether words are copied as they are.
fn is_copied(alloc: Global, text: &str) -> Result<bool, Fail> {
    let words = some_words(alloc, text)?;
    let mut copies = Vec::new(alloc);
    push_copies(alloc, &mut copies, words.as_slice())?;
    Ok(copies.as_slice() == words.as_slice() && copied(alloc, words.as_slice())? == words)
}

#[test]
fn copies_words(rt: HostRuntime) -> Result<(), Fail> {
    for text in ["-", "int long null", "a/C [[I new@3 this"] {
        assert!(rt; is_copied(rt.alloc(), text)?, "at {text}");
    }
    Ok(())
}

/// Words, and what each is.
const KINDS: &str = "\
top neither
int neither
float neither
long wide
double wide
null reference
this reference
new@3 reference
a/C reference
[I reference
[[I reference";

/// Whether the word of a line is what it must be.
fn is_of_kind(alloc: Global, line: &str) -> Result<bool, Fail> {
    let of = vtype_of(alloc, word(line, 0))?;
    let wanted = word(line, 1);
    Ok(is_wide(&of) == (wanted == "wide") && is_reference(&of) == (wanted == "reference"))
}

#[test]
fn tells_kinds_of_words(rt: HostRuntime) -> Result<(), Fail> {
    for line in KINDS.lines() {
        assert!(rt; is_of_kind(rt.alloc(), line)?, "at {line}");
    }
    Ok(())
}
