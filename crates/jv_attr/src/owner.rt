/// What an attribute belongs to (JVMS 4.7).
#[derive(Clone, Copy, Debug, PartialEq, Eq, PartialOrd, Ord)]
pub enum Owner {
    Class,
    Field,
    Method,
    /// The attribute `Code` of a method.
    Code,
}
