ghost use Rattle.std.specs.Prelude.{◌≡◌};
ghost use Rattle.av_collected.specs.declared.stop.CollectStop.TheVariants.{Memory};

use jv_types::{Name, Quantity};
use std::alloc::{AllocError, AllocFailed};

/// Why nothing was collected.
#[derive(Debug, PartialEq, Eq, PartialOrd, Ord, Drop)]
pub enum CollectStop {
    /// The file of this collected class is malformed or unfit.
    LibraryForm(Name),
    /// This collected class has no file.
    Missing(Name),
    /// This collected class names a class of the application.
    NamesApplication(Name),
    /// This quantity passes its limit.
    Limit(Quantity),
    /// The source failed.
    Failed,
    /// Memory is wanting.
    Memory,
}

impl From<AllocError> for CollectStop {
    ghost from_gives = { λ _ e. e ≡ Memory };

    fn from(_e: AllocError) -> CollectStop {
        CollectStop::Memory
    }
}

impl<T: Drop> From<AllocFailed<T>> for CollectStop {
    ghost from_gives = { λ _ e. e ≡ Memory };

    fn from(_e: AllocFailed<T>) -> CollectStop {
        CollectStop::Memory
    }
}
