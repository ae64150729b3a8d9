ghost use Rattle.std.specs.Prelude.{◌≡◌};
ghost use Rattle.av_hierarchy.specs.declared.refusal.Unsound.TheVariants.{Memory};

use jv_types::{Name, Rule};
use std::alloc::{AllocError, AllocFailed};

/// Why classes have no world of sound supertypes.
#[derive(Debug, PartialEq, Eq, Drop)]
pub enum Unsound {
    /// This rule fails, at the class of this name.
    At { rule: Rule, name: Name },
    /// Memory is wanting.
    Memory,
}

impl From<AllocError> for Unsound {
    ghost from_gives = { λ _ e. e ≡ Memory };

    fn from(_e: AllocError) -> Unsound {
        Unsound::Memory
    }
}

impl<T: Drop> From<AllocFailed<T>> for Unsound {
    ghost from_gives = { λ _ e. e ≡ Memory };

    fn from(_e: AllocFailed<T>) -> Unsound {
        Unsound::Memory
    }
}
