ghost use Rattle.std.specs.Prelude.{◌≡◌};
ghost use Rattle.jv_desc.specs.declared.fault.BadDesc.TheVariants.{Memory};

use std::alloc::{AllocError, AllocFailed};

/// Why bytes were not read as a descriptor.
#[derive(Clone, Copy, Debug, PartialEq, Eq)]
pub enum BadDesc {
    /// The bytes are no such descriptor.
    Bad,
    /// Memory is wanting.
    Memory,
}

impl From<AllocError> for BadDesc {
    ghost from_gives = { λ _ e. e ≡ Memory };

    fn from(_e: AllocError) -> BadDesc {
        BadDesc::Memory
    }
}

impl<T: Drop> From<AllocFailed<T>> for BadDesc {
    ghost from_gives = { λ _ e. e ≡ Memory };

    fn from(_e: AllocFailed<T>) -> BadDesc {
        BadDesc::Memory
    }
}
