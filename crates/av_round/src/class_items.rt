use jv_types::{Name, Seq};

/// A collected class, with the places of its collected fields and methods among those that it declares, rising.
#[derive(Debug, PartialEq, Eq, PartialOrd, Ord, Drop)]
pub struct ClassItems {
    pub name: Name,
    pub fields: Seq<u16>,
    pub methods: Seq<u16>,
}
