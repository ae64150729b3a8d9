ghost use Rattle.std.specs.Prelude.{◌≡◌};
ghost use Rattle.av_program.specs.declared.accept_stop.AcceptStop.TheVariants.{Memory};

use jv_types::{Copied, Name, Quantity, Refusal};
use std::alloc::{AllocError, AllocFailed};

/// Why an application isn't accepted.
#[derive(Debug, PartialEq, Eq, PartialOrd, Ord, Drop)]
pub enum AcceptStop {
    /// This rule fails, and there.
    Refused(Refusal),
    /// This quantity passes its limit, which is this number.
    Limit(Quantity, u64),
    /// The host failed to read this file, or to list this root.
    ReadFault(Name),
    /// Memory is wanting.
    Memory,
}

impl From<AllocError> for AcceptStop {
    ghost from_gives = { λ _ e. e ≡ Memory };

    fn from(_e: AllocError) -> AcceptStop {
        AcceptStop::Memory
    }
}

impl<T: Drop> From<AllocFailed<T>> for AcceptStop {
    ghost from_gives = { λ _ e. e ≡ Memory };

    fn from(_e: AllocFailed<T>) -> AcceptStop {
        AcceptStop::Memory
    }
}

impl Copied for AcceptStop {
    fn copy(&self) -> Result<AcceptStop, AllocError> {
        match self {
            AcceptStop::Refused(refusal) => Ok(AcceptStop::Refused(refusal.copy()?)),
            AcceptStop::Limit(quantity, number) => Ok(AcceptStop::Limit(*quantity, *number)),
            AcceptStop::ReadFault(name) => Ok(AcceptStop::ReadFault(name.copy()?)),
            AcceptStop::Memory => Ok(AcceptStop::Memory),
        }
    }
}
