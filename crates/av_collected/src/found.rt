use jv_types::{Quantity, Shape};

/// What a source has under a name.
#[derive(Debug, PartialEq, Eq, PartialOrd, Ord, Drop)]
pub enum ShapeFound {
    /// The class of this name.
    Shape(Shape),
    /// A file that is no class file, or not that of a class of this name.
    Malformed,
    /// No file.
    Absent,
    /// A limit is passed, so that nothing was looked up.
    TooMuch(Quantity),
}
