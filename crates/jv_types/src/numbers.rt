ghost use Rattle.std.specs.Prelude.{◌≡◌, IfOk};

use crate::seq::Seq;
use std::alloc::{AllocError, Global};

/// An equal list of values that are made of numbers. Only memory can be wanting.
pub fn copy_plain<T: Copy>(alloc: Global, list: &Seq<T>) -> Result<Seq<T>, AllocError>
    ensures { IfOk result (λ made. made ≡ list.now) }
{
    Ok(Seq::from_vec(Vec::from_slice(alloc, list.as_slice())?))
}
