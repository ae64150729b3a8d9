ghost use Rattle.std.specs.Prelude.{◌≡◌};
ghost use Rattle.jv_verify.specs.declared.refusal.VerifyRefusal.TheVariants as refusal;

use jv_types::Rule;
use std::alloc::{AllocError, AllocFailed};
use thiserror::Error;

/// Why a method has no table of frames.
#[derive(Clone, Copy, Debug, PartialEq, Eq, Error)]
pub enum VerifyRefusal {
    /// A rule fails, and the least offset at which it does: `StackMap` where a frame of the method's stack map
    /// is none, `TypeRule` where no table types the method.
    #[error("the method fails at {pc}")]
    At { rule: Rule, pc: u32 },
    /// Memory is wanting.
    #[error("out of memory")]
    Memory,
}

impl From<AllocError> for VerifyRefusal {
    ghost from_gives = { λ _ e. e ≡ refusal.Memory };

    fn from(_e: AllocError) -> VerifyRefusal {
        VerifyRefusal::Memory
    }
}

impl<T: Drop> From<AllocFailed<T>> for VerifyRefusal {
    ghost from_gives = { λ _ e. e ≡ refusal.Memory };

    fn from(_e: AllocFailed<T>) -> VerifyRefusal {
        VerifyRefusal::Memory
    }
}
