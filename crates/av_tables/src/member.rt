/// A method of a class, by the number of the class and its place among the methods that the class declares.
#[derive(Clone, Copy, Debug, PartialEq, Eq, PartialOrd, Ord)]
pub struct Member {
    pub class: usize,
    pub place: u16,
}
