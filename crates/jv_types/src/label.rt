use crate::desc::PrimType;
use crate::ids::{ClassId, MethodId};

/// What an object of the library, or an array's innermost item, is made of.
#[derive(Clone, Copy, Debug, PartialEq, Eq, PartialOrd, Ord)]
pub enum LibBase {
    /// A class or interface.
    Class(ClassId),
    /// A primitive type (JVMS table 4.3-A).
    Prim(PrimType),
}

/// What objects are told apart by: where the application made them, or which of the library's types
/// they have.
#[derive(Clone, Copy, Debug, PartialEq, Eq, PartialOrd, Ord)]
pub enum Label {
    /// The instruction of this method at this offset made it. An array inside the array that
    /// `multianewarray` makes has the number of arrays around it as its depth; else that is 0.
    Site {
        method: MethodId,
        pc: u16,
        depth: u8,
    },
    /// The library made it, with so many dimensions.
    Lib {
        base: LibBase,
        dims: u8,
    },
}
