ghost use Rattle.std.specs.Prelude.{◌≡◌};
ghost use Rattle.av_method_rules.specs.declared.outcome.MethodStop.TheVariants.{Memory};

use jv_types::Rule;
use std::alloc::{AllocError, AllocFailed};

/// Why a method isn't accepted.
#[derive(Clone, Copy, Debug, PartialEq, Eq)]
pub enum MethodStop {
    /// This rule fails, at this offset.
    At { rule: Rule, pc: u32 },
    /// Memory is wanting.
    Memory,
}

impl From<AllocError> for MethodStop {
    ghost from_gives = { λ _ e. e ≡ Memory };

    fn from(_e: AllocError) -> MethodStop {
        MethodStop::Memory
    }
}

impl<T: Drop> From<AllocFailed<T>> for MethodStop {
    ghost from_gives = { λ _ e. e ≡ Memory };

    fn from(_e: AllocFailed<T>) -> MethodStop {
        MethodStop::Memory
    }
}
