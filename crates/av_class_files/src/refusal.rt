ghost use Rattle.std.specs.Prelude.{◌≡◌};
ghost use Rattle.av_class_files.specs.declared.refusal.FileRefusal.TheVariants as refusal;

use std::alloc::AllocError;
use thiserror::Error;

/// Why there is no file.
#[derive(Clone, Copy, Debug, PartialEq, Eq, Error)]
pub enum FileRefusal {
    /// A class names more than a pool can have (JVMS 4.1).
    #[error("the constant pool is full")]
    PoolFull,
    /// Memory is wanting.
    #[error("out of memory")]
    Memory,
}

impl From<AllocError> for FileRefusal {
    ghost from_gives = { λ _ e. e ≡ refusal.Memory };

    fn from(_e: AllocError) -> FileRefusal {
        FileRefusal::Memory
    }
}
