/// A class of a world, by its number there.
#[derive(Clone, Copy, Debug, PartialEq, Eq, PartialOrd, Ord)]
pub struct ClassId {
    pub number: u32,
}

/// A field of a class, by its place among the fields that the class declares.
#[derive(Clone, Copy, Debug, PartialEq, Eq, PartialOrd, Ord)]
pub struct FieldId {
    pub class: ClassId,
    pub index: u16,
}

/// A method of a class, by its place among the methods that the class declares.
#[derive(Clone, Copy, Debug, PartialEq, Eq, PartialOrd, Ord)]
pub struct MethodId {
    pub class: ClassId,
    pub index: u16,
}
