/// An entry of a method's exception table as a class file has it (JVMS 4.7.3): offsets in bytes from the
/// start of the code, and the pool index of the class that is caught, or 0 for all.
#[derive(Clone, Copy, Debug, PartialEq, Eq, PartialOrd, Ord)]
pub struct RawHandler {
    /// The first offset that is covered.
    pub start: u16,
    /// The offset after the last that is covered.
    pub end: u16,
    pub target: u16,
    pub catch: u16,
}
