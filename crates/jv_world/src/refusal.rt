ghost use Rattle.std.specs.Prelude.{◌≡◌};
ghost use Rattle.jv_world.specs.declared.refusal.HierRefusal.TheVariants.{Memory};

use jv_types::Name;
use std::alloc::{AllocError, AllocFailed};

/// Why a list of shapes is no world.
#[derive(Debug, PartialEq, Eq, Drop)]
pub enum HierRefusal {
    /// A superclass or superinterface of this name isn't there (JVMS 5.3.5).
    Missing(Name),
    /// The class of this name is its own proper supertype.
    Circular(Name),
    /// The class of this name has a superclass or superinterface of the wrong kind (JVMS 4.1, 5.3.5).
    SuperKind(Name),
    /// Memory is wanting.
    Memory,
}

impl From<AllocError> for HierRefusal {
    ghost from_gives = { λ _ e. e ≡ Memory };

    fn from(_e: AllocError) -> HierRefusal {
        HierRefusal::Memory
    }
}

impl<T: Drop> From<AllocFailed<T>> for HierRefusal {
    ghost from_gives = { λ _ e. e ≡ Memory };

    fn from(_e: AllocFailed<T>) -> HierRefusal {
        HierRefusal::Memory
    }
}
