ghost use Rattle.std.specs.Prelude.{◌^◌, ◌<◌, ◌↔◌, length, All, IsTrue, IfOk};
ghost use Rattle.jv_world.specs.Worlds.{AreNumbered, HaveDistinctNames};

use indexmap::IndexSet;
use jv_types::Shape;
use std::alloc::{AllocError, Global};

/// How many members of each kind a class may have: their places are numbers of 16 bits.
const MEMBERS_END: usize = 65536;

/// How many classes a world may have: their places are numbers of 32 bits.
const CLASSES_END: usize = 4294967296;

/// Whether no shape has too many fields or methods.
fn have_few_members(shapes: &[Shape]) -> bool
    ensures { IsTrue result ↔ All (λ s. (length s.fields < 2 ^ 16) × (length s.methods < 2 ^ 16)) shapes.now }
{
    for shape in shapes {
        if shape.fields.len() >= MEMBERS_END || shape.methods.len() >= MEMBERS_END {
            return false;
        }
    }
    true
}

/// Whether no two shapes have one name. Only memory can be wanting.
fn have_distinct_names(alloc: Global, shapes: &[Shape]) -> Result<bool, AllocError>
    ensures { IfOk result (λ distinct. IsTrue distinct ↔ HaveDistinctNames shapes.now) }
{
    let mut keys = IndexSet::with_capacity(alloc, shapes.len())?;
    for shape in shapes {
        let added = keys.insert(Vec::from_slice(alloc, shape.name.as_slice())?)?;
        if !added {
            return Ok(false);
        }
    }
    Ok(true)
}

/// Whether the shapes may be those of a world, as far as numbers go: their names differ, and there are
/// fewer than 2^32 of them, none with more than 65,535 fields or methods. Only memory can be wanting.
pub fn are_numbered(alloc: Global, shapes: &[Shape]) -> Result<bool, AllocError>
    ensures { IfOk result (λ numbered. IsTrue numbered ↔ AreNumbered shapes.now) }
{
    if shapes.len() >= CLASSES_END || !have_few_members(shapes) {
        return Ok(false);
    }
    have_distinct_names(alloc, shapes)
}
