/// What a word of a frame, a field, a static field or an item of an array holds (JVMS 2.2). A number's value isn't
/// kept.
#[derive(Clone, Copy, Debug, PartialEq, Eq, PartialOrd, Ord)]
pub enum Held {
    /// The null reference.
    Null,
    /// A reference to an object, by its number: how many objects were made before it.
    Ref(u64),
    /// A word of a number, or a whole number where a place holds one.
    Word,
}
