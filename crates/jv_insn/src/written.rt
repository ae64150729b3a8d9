use jv_types::Seq;

/// The operands of an instruction as they are written (JVMS 6.5): indices of the pool, and offsets in
/// bytes from the instruction's own opcode.
#[derive(Debug, PartialEq, Eq, Drop)]
pub enum Operands {
    Nothing,
    /// The index of a local variable.
    Local(u16),
    /// The number that bipush or sipush pushes.
    Small(i16),
    /// The local variable of an iinc, and what is added.
    Inc(u16, i16),
    /// An index of the pool.
    Index(u16),
    /// Those of an invokeinterface: an index of the pool, and two bytes.
    Called(u16, u8, u8),
    /// Those of an invokedynamic: an index of the pool, and two bytes.
    Site(u16, u8, u8),
    /// The code of the element type of a newarray.
    NewPrim(u8),
    /// Those of a multianewarray: an index of the pool, and how many dimensions are made.
    Multi(u16, u8),
    /// The offset of a jump's target.
    Jump(i32),
    /// A tableswitch: the offsets of the targets of `low` and the values after it.
    Table {
        default: i32,
        low: i32,
        offsets: Seq<i32>,
    },
    /// A lookupswitch: values, each with the offset of its target.
    Lookup {
        default: i32,
        cases: Seq<(i32, i32)>,
    },
}

/// An instruction as it is written. Under `wide` the opcode is the one that follows.
#[derive(Debug, PartialEq, Eq, Drop)]
pub struct Written {
    pub op: u8,
    pub wide: bool,
    pub operands: Operands,
}
