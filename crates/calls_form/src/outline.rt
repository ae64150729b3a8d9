use jv_types::{Access, Name, Seq};

/// What the reader keeps of an item of the constant pool (JVMS 4.4).
#[derive(Debug, PartialEq, Eq, PartialOrd, Ord, Drop)]
pub enum Entry {
    /// A text, as the bytes of its modified UTF-8.
    Utf8(Name),
    /// A class, by the index of its name.
    Class(u16),
    /// A field of a class, by the indices of the class and of the name and descriptor.
    Fieldref(u16, u16),
    /// A method of a class, by the indices of the class and of the name and descriptor.
    Methodref(u16, u16),
    /// The indices of a name and a descriptor.
    NameAndType(u16, u16),
    /// An index at which nothing stands that this form looks at.
    Unused,
}

/// A field as the file has it: the indices of its name and descriptor (JVMS 4.5).
#[derive(Debug, PartialEq, Eq, PartialOrd, Ord, Drop)]
pub struct RawField {
    pub access: Access,
    pub name: u16,
    pub desc: u16,
}

/// A method as the file has it: the indices of its name and descriptor, and the content of its one
/// attribute `Code` (JVMS 4.6).
#[derive(Debug, PartialEq, Eq, PartialOrd, Ord, Drop)]
pub struct RawMethod {
    pub access: Access,
    pub name: u16,
    pub desc: u16,
    pub code: Seq<u8>,
}

/// A class file without interfaces, as far as the reader keeps it (JVMS 4.1). The pool
/// is kept by index, so that an unused entry stands at 0.
#[derive(Debug, PartialEq, Eq, PartialOrd, Ord, Drop)]
pub struct Outline {
    pub major: u16,
    pub pool: Seq<Entry>,
    pub this_class: u16,
    pub super_class: u16,
    pub fields: Seq<RawField>,
    pub methods: Seq<RawMethod>,
}
