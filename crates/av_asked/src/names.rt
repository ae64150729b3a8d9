ghost use Rattle.std.specs.Prelude.{◌≡◌, ◌≢◌, ◌++◌, ◌∷◌, [], ◌↔◌, ℕ, List, Some, Contains, IfNone, IfSome, IsTrue, OnOk, length, map, slice_get};

use indexmap::IndexSet;
use jv_types::Name;
use std::alloc::{AllocError, Global};
use std::marker::Model;

/// Names in some order, each once and found by its place, which clauses see as their list.
#[derive(Drop)]
pub struct NameList {
    keys: IndexSet<Vec<u8>>,
}

impl Model for NameList {
    ghost Value = { List (List ℕ) };

    ghost view = { λ list. map (λ key. key.items) list.keys.keys };
}

impl NameList {
    /// No names. It takes no memory.
    pub fn new(alloc: Global) -> NameList
        ensures { result ≡ [] }
    {
        NameList {
            keys: IndexSet::new(alloc),
        }
    }

    /// How many they are.
    pub fn len(&self) -> usize
        ensures { result ≡ length self.now }
    {
        self.keys.len()
    }

    /// The place of a name, if it is one of them.
    pub fn place(&self, name: &Name) -> Option<usize>
        ensures found { IfSome result (λ place. slice_get self.now place ≡ Some name.now) }
        ensures none { IfNone result ((place : ℕ) → slice_get self.now place ≢ Some name.now) }
    {
        self.keys.get_index_of(name.as_slice())
    }

    /// Whether a name is one of them.
    pub fn has(&self, name: &Name) -> bool
        ensures { IsTrue result ↔ Contains self.now name.now }
    {
        self.place(name).is_some()
    }

    /// Puts a name that isn't one of them last. Only memory can be wanting.
    pub fn add(&mut self, name: &Name) -> Result<(), AllocError>
        requires { ¬ Contains self.old name.now }
        ensures { OnOk result (self.new ≡ self.old ++ name.now ∷ []) }
    {
        let key = Vec::from_slice(name.allocator(), name.as_slice())?;
        self.keys.insert(key)?;
        Ok(())
    }
}
