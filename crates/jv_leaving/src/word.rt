/// A word of a frame, counted from 0, the stack from its bottom (JVMS 2.6).
#[derive(Clone, Copy, Debug, PartialEq, Eq)]
pub enum Word {
    Local(usize),
    Stack(usize),
}
