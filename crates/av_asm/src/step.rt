use jv_types::Insn;

/// An instruction that was put.
#[derive(Debug, Drop)]
pub enum Step {
    /// An instruction as it is.
    Put(Insn),
    /// A branch of this opcode whose target isn't known yet.
    Open(u8),
    /// A branch of this opcode to the instruction of this number.
    Landed(u8, u32),
}

/// A handler of all throwables, over instructions by their numbers.
#[derive(Clone, Copy, Debug)]
pub struct Span {
    /// The first instruction that is covered.
    pub start: u32,
    /// The instruction after the last that is covered.
    pub end: u32,
    /// The instruction at which it is handled.
    pub target: u32,
}
