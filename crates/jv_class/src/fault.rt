use thiserror::Error;

/// Why bytes were not read as a class file.
#[derive(Clone, Copy, Debug, PartialEq, Eq, Error)]
pub enum BadClass {
    /// The bytes are the text of no class.
    #[error("no class file")]
    NotClass,
    /// Memory is wanting.
    #[error("out of memory")]
    Memory,
}

/// Why a class was not written.
#[derive(Clone, Copy, Debug, PartialEq, Eq, Error)]
pub enum WriteRefusal {
    /// The greatest index of the constant pool passes 65534 (JVMS 4.1).
    #[error("the constant pool is full")]
    PoolFull,
    /// A list whose count has two bytes has more than 65535 entries.
    #[error("a part of the class has too many entries")]
    TooMany,
    /// A text of the pool or a code has more than 65535 bytes, or an attribute more than 2^32 - 1.
    #[error("a part of the class is too long")]
    TooLong,
    /// Memory is wanting.
    #[error("out of memory")]
    Memory,
}
