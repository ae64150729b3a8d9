use crate::worlds::build;
use jv_world::World;
use std::alloc::Global;
use std::test::Fail;
use tests_text::part;

/// What rows ask of a world.
pub trait Asked {
    /// Whether what is asked has the wanted answer.
    fn is_answered(
        &self,
        alloc: Global,
        world: &World,
        asked: &str,
        wanted: &str,
    ) -> Result<bool, Fail>;
}

/// Whether a row has its answer: a world, what is asked, and the answer, between the signs ` = `.
fn is_right<A: Asked>(alloc: Global, asked: &A, row: &str) -> Result<bool, Fail> {
    let world = build(alloc, part(row, 0))??;
    asked.is_answered(alloc, &world, part(row, 1), part(row, 2))
}

/// The first row that does not have its answer, and an empty text where each has. A line that begins with `#` is
/// no row.
pub fn first_wrong<'a, A: Asked>(alloc: Global, asked: &A, rows: &'a str) -> Result<&'a str, Fail> {
    for row in rows.lines() {
        if !row.starts_with('#') && !is_right(alloc, asked, row)? {
            return Ok(row);
        }
    }
    Ok("")
}

/// Whether a world has the answer of a row: what is asked, and the answer.
fn is_right_in<A: Asked>(alloc: Global, asked: &A, world: &World, row: &str) -> Result<bool, Fail> {
    asked.is_answered(alloc, world, part(row, 0), part(row, 1))
}

/// The first row of which a world does not have the answer, and an empty text where it has each.
pub fn first_wrong_in<'a, A: Asked>(
    alloc: Global,
    asked: &A,
    world: &World,
    rows: &'a str,
) -> Result<&'a str, Fail> {
    for row in rows.lines() {
        if !is_right_in(alloc, asked, world, row)? {
            return Ok(row);
        }
    }
    Ok("")
}
