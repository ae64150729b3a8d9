use jv_types::{Copied, Seq, Shape};
use std::alloc::AllocError;

/// The library classes that an application can meet, in order of name.
#[derive(Debug, PartialEq, Eq, PartialOrd, Ord, Drop)]
pub struct Collected {
    /// The classes as their files have them.
    pub full: Seq<Shape>,
    /// The same classes with their collected members alone.
    pub shapes: Seq<Shape>,
    /// The greatest number of dimensions of an array type that is spoken of, at least 1.
    pub dims: u8,
}

impl Copied for Collected {
    fn copy(&self) -> Result<Collected, AllocError> {
        Ok(Collected {
            full: self.full.copy()?,
            shapes: self.shapes.copy()?,
            dims: self.dims,
        })
    }
}
