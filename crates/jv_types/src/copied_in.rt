ghost use Rattle.std.specs.Prelude.{◌≡◌, IfOk};

use std::alloc::{AllocError, Global};

/// A value that may be made a second time with memory from an allocator that is handed in, where memory
/// is left for it.
pub trait CopiedIn: Sized {
    /// An equal value. Only memory can be wanting.
    fn copy_in(&self, alloc: Global) -> Result<Self, AllocError>
        ensures { IfOk result (λ made. made ≡ self.now) };
}
