ghost use Rattle.std.specs.Prelude.{◌≡◌};
ghost use Rattle.jv_frames.specs.declared.fault.BadMap.TheVariants as map;

use std::alloc::{AllocError, AllocFailed};
use thiserror::Error;

/// Why a method's stack map has no frames.
#[derive(Clone, Copy, Debug, PartialEq, Eq, Error)]
pub enum BadMap {
    /// A frame of the map isn't one of the method. The offset is that of the first such frame.
    #[error("the stack map fails at {pc}")]
    At { pc: u32 },
    /// Memory is wanting.
    #[error("out of memory")]
    Memory,
}

impl From<AllocError> for BadMap {
    ghost from_gives = { λ _ e. e ≡ map.Memory };

    fn from(_e: AllocError) -> BadMap {
        BadMap::Memory
    }
}

impl<T: Drop> From<AllocFailed<T>> for BadMap {
    ghost from_gives = { λ _ e. e ≡ map.Memory };

    fn from(_e: AllocFailed<T>) -> BadMap {
        BadMap::Memory
    }
}
