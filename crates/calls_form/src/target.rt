/// What an index of the pool names, where an instruction may name it.
#[derive(Clone, Copy)]
pub enum Target {
    /// The field of the class at this place.
    Field(u16),
    /// The method of the class at this place.
    Method(u16),
    /// The constructor of `java/lang/Object`.
    ObjectInit,
    /// The class itself.
    This,
}
