use jv_types::{MethodDesc, Name};

/// The name and the descriptor of a method.
#[derive(Debug, PartialEq, Eq, PartialOrd, Ord, Drop)]
pub struct Signature {
    pub name: Name,
    pub desc: MethodDesc,
}
