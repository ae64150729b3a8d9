ghost use Rattle.std.specs.Prelude.{◌≡◌, IfOk};

use std::alloc::AllocError;

/// A value that may be made a second time, where memory is left for it.
pub trait Copied: Sized {
    /// An equal value. Only memory can be wanting.
    fn copy(&self) -> Result<Self, AllocError>
        ensures { IfOk result (λ made. made ≡ self.now) };
}
