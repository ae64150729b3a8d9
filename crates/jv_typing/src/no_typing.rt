ghost use Rattle.std.specs.Prelude.{◌≡◌};
ghost use Rattle.jv_typing.specs.declared.no_typing.NoTyping.TheVariants as none;

use std::alloc::{AllocError, AllocFailed};

/// Why a frame and an instruction lead to no frame.
#[derive(Clone, Copy, Debug, PartialEq, Eq)]
pub enum NoTyping {
    /// The instruction has no typing on the frame (JVMS 4.10.1.9).
    Rule,
    /// Memory is wanting.
    Memory,
}

impl From<AllocError> for NoTyping {
    ghost from_gives = { λ _ e. e ≡ none.Memory };

    fn from(_e: AllocError) -> NoTyping {
        NoTyping::Memory
    }
}

impl<T: Drop> From<AllocFailed<T>> for NoTyping {
    ghost from_gives = { λ _ e. e ≡ none.Memory };

    fn from(_e: AllocFailed<T>) -> NoTyping {
        NoTyping::Memory
    }
}
