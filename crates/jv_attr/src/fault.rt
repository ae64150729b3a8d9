use thiserror::Error;

/// Why bytes were not read as an attribute.
#[derive(Clone, Copy, Debug, PartialEq, Eq, Error)]
pub enum BadAttr {
    /// No front of the bytes is an attribute.
    #[error("no attribute")]
    Bad,
    /// Memory is wanting.
    #[error("out of memory")]
    Memory,
}
