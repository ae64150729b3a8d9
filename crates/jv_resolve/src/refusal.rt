ghost use Rattle.std.specs.Prelude.{◌≡◌};
ghost use Rattle.jv_resolve.specs.declared.refusal.ResolveRefusal.TheVariants.{Memory};

use std::alloc::{AllocError, AllocFailed};

/// Why a reference is not resolved.
#[derive(Clone, Copy, Debug, PartialEq, Eq)]
pub enum ResolveRefusal {
    /// The named type is an interface where a class is wanted, or no interface where one is wanted
    /// (JVMS 5.4.3.3, 5.4.3.4).
    WrongKind,
    /// Nothing is found.
    NotFound,
    /// What is found is not accessible (JVMS 5.4.4).
    NoAccess,
    /// Memory is wanting.
    Memory,
}

impl From<AllocError> for ResolveRefusal {
    ghost from_gives = { λ _ e. e ≡ Memory };

    fn from(_e: AllocError) -> ResolveRefusal {
        ResolveRefusal::Memory
    }
}

impl<T: Drop> From<AllocFailed<T>> for ResolveRefusal {
    ghost from_gives = { λ _ e. e ≡ Memory };

    fn from(_e: AllocFailed<T>) -> ResolveRefusal {
        ResolveRefusal::Memory
    }
}
