ghost use Rattle.std.specs.Prelude.{◌≡◌, ℕ, List, [], ◌∷◌, ◌++◌};
ghost use Rattle.std.specs.Borrow.{ftrue};

use jv_types::Name;
use std::marker::Model;

/// The names that a source was asked for, in order. It takes no bytes and exists only in proofs, since a name counts
/// as asked for also where memory is wanting.
#[derive(Drop)]
pub struct AskedNames {
    pub ghost names: { List (List ℕ) },
}

impl Model for AskedNames {
    ghost also_owns = { λ _. ftrue };
}

impl AskedNames {
    /// No names.
    pub fn new() -> AskedNames
        ensures { result.names ≡ [] }
    {
        AskedNames {}
    }

    /// These names, and one more behind them.
    pub fn with(&self, _name: &Name) -> AskedNames
        ensures { result.names ≡ self.now.names ++ _name.now ∷ [] }
    {
        AskedNames {}
    }
}
