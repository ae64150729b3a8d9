ghost use Rattle.std.specs.Prelude.{◌≡◌};
ghost use Rattle.jv_verify.specs.declared.no_body.NoBody.TheVariants as none;

use std::alloc::{AllocError, AllocFailed};
use thiserror::Error;

/// Why a method of a class file has no body.
#[derive(Clone, Copy, Debug, PartialEq, Eq, Error)]
pub enum NoBody {
    /// The class file has no code for it.
    #[error("the method has no code")]
    NoCode,
    /// Its code has no byte, or more than 65,535 (JVMS 4.7.3).
    #[error("the code is empty or too long")]
    Length,
    /// Its code isn't well formed. The offset is the least at which it fails.
    #[error("the code isn't well formed at {pc}")]
    At { pc: u16 },
    /// Memory is wanting.
    #[error("out of memory")]
    Memory,
}

impl From<AllocError> for NoBody {
    ghost from_gives = { λ _ e. e ≡ none.Memory };

    fn from(_e: AllocError) -> NoBody {
        NoBody::Memory
    }
}

impl<T: Drop> From<AllocFailed<T>> for NoBody {
    ghost from_gives = { λ _ e. e ≡ none.Memory };

    fn from(_e: AllocFailed<T>) -> NoBody {
        NoBody::Memory
    }
}
