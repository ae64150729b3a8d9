ghost use Rattle.std.specs.Prelude.{◌≡◌};
ghost use Rattle.jv_pool.specs.declared.fault.PoolRefusal.TheVariants as refusal;
ghost use Rattle.jv_pool.specs.declared.fault.WriteRefusal.TheVariants as write;

use std::alloc::{AllocError, AllocFailed};
use thiserror::Error;

/// Why bytes were not read as a constant pool.
#[derive(Clone, Copy, Debug, PartialEq, Eq, Error)]
pub enum BadPool {
    /// No front of the bytes is a constant pool.
    #[error("no constant pool")]
    Bad,
    /// Memory is wanting.
    #[error("out of memory")]
    Memory,
}

/// Why an item was not added to a constant pool.
#[derive(Clone, Copy, Debug, PartialEq, Eq, Error)]
pub enum PoolRefusal {
    /// The greatest index would pass 65534.
    #[error("the constant pool is full")]
    PoolFull,
    /// Memory is wanting.
    #[error("out of memory")]
    Memory,
}

impl From<AllocError> for PoolRefusal {
    ghost from_gives = { λ _ e. e ≡ refusal.Memory };

    fn from(_e: AllocError) -> PoolRefusal {
        PoolRefusal::Memory
    }
}

impl<T: Drop> From<AllocFailed<T>> for PoolRefusal {
    ghost from_gives = { λ _ e. e ≡ refusal.Memory };

    fn from(_e: AllocFailed<T>) -> PoolRefusal {
        PoolRefusal::Memory
    }
}

/// Why a part of a class file was not written.
#[derive(Clone, Copy, Debug, PartialEq, Eq, Error)]
pub enum WriteRefusal {
    /// A length doesn't fit the bytes that it has.
    #[error("a part of the class is too long")]
    TooLong,
    /// Memory is wanting.
    #[error("out of memory")]
    Memory,
}

impl From<AllocError> for WriteRefusal {
    ghost from_gives = { λ _ e. e ≡ write.Memory };

    fn from(_e: AllocError) -> WriteRefusal {
        WriteRefusal::Memory
    }
}

impl<T: Drop> From<AllocFailed<T>> for WriteRefusal {
    ghost from_gives = { λ _ e. e ≡ write.Memory };

    fn from(_e: AllocFailed<T>) -> WriteRefusal {
        WriteRefusal::Memory
    }
}
