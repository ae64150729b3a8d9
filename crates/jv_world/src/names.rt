ghost use Rattle.std.specs.Prelude.{◌≡◌, ◌≢◌, ℕ, List, Some, map, slice_get, IfOk, IfSome, IfNone};
ghost use Rattle.jv_world.specs.Worlds.{AreNumbered};

use indexmap::IndexSet;
use jv_types::{Name, Shape};
use std::alloc::{AllocError, Global};
use std::marker::Model;

/// The names of a list of shapes, each found by its place, which clauses see as the list of names.
#[derive(Drop)]
pub struct Names {
    keys: IndexSet<Vec<u8>>,
}

impl Model for Names {
    ghost Value = { List (List ℕ) };

    ghost view = { λ n. map (λ k. k.items) n.keys.keys };
}

impl Names {
    /// The names of these shapes, in their order. Only memory can be wanting.
    pub fn of(alloc: Global, shapes: &[Shape]) -> Result<Names, AllocError>
        requires { AreNumbered shapes.now }
        ensures { IfOk result (λ names. names ≡ map (λ s. s.name) shapes.now) }
    {
        let mut keys = IndexSet::with_capacity(alloc, shapes.len())?;
        for shape in shapes {
            keys.insert(Vec::from_slice(alloc, shape.name.as_slice())?)?;
        }
        Ok(Names { keys })
    }

    /// The place of a name, if it is one of them.
    pub fn place(&self, name: &Name) -> Option<usize>
        ensures found { IfSome result (λ i. slice_get self.now i ≡ Some name.now) }
        ensures none { IfNone result ((i : ℕ) → slice_get self.now i ≢ Some name.now) }
    {
        self.keys.get_index_of(name.as_slice())
    }
}
