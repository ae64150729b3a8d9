ghost use Rattle.std.specs.Prelude.{◌≡◌};
ghost use Rattle.jv_insn.specs.declared.fault.BadCode.TheVariants as code;
ghost use Rattle.jv_insn.specs.declared.fault.EncodeRefusal.TheVariants as refusal;

use std::alloc::{AllocError, AllocFailed};
use thiserror::Error;

/// Why a code was not decoded.
#[derive(Clone, Copy, Debug, PartialEq, Eq, Error)]
pub enum BadCode {
    /// The code isn't well formed. The offset is the least at which it fails.
    #[error("the code isn't well formed at {pc}")]
    At { pc: u16 },
    /// Memory is wanting.
    #[error("out of memory")]
    Memory,
}

impl From<AllocError> for BadCode {
    ghost from_gives = { λ _ e. e ≡ code.Memory };

    fn from(_e: AllocError) -> BadCode {
        BadCode::Memory
    }
}

impl<T: Drop> From<AllocFailed<T>> for BadCode {
    ghost from_gives = { λ _ e. e ≡ code.Memory };

    fn from(_e: AllocFailed<T>) -> BadCode {
        BadCode::Memory
    }
}

/// Why a body was not encoded.
#[derive(Clone, Copy, Debug, PartialEq, Eq, Error)]
pub enum EncodeRefusal {
    /// The greatest index of the constant pool would pass 65534.
    #[error("the constant pool is full")]
    PoolFull,
    /// The code would have more than 65535 bytes (JVMS 4.7.3). This is for whoever builds code: `encode` never
    /// answers it, since a body isn't longer.
    #[error("the code is too long")]
    TooLong,
    /// Memory is wanting.
    #[error("out of memory")]
    Memory,
}

impl From<AllocError> for EncodeRefusal {
    ghost from_gives = { λ _ e. e ≡ refusal.Memory };

    fn from(_e: AllocError) -> EncodeRefusal {
        EncodeRefusal::Memory
    }
}
