use jv_attr::Attr;
use jv_pool::Pool;
use jv_types::Seq;

/// A field or a method of a class file (JVMS 4.5, 4.6): its access flags, the indices of its name and its
/// descriptor, and its attributes.
#[derive(Debug, Drop)]
pub struct Member {
    pub access: u16,
    pub name: u16,
    pub desc: u16,
    pub attrs: Seq<Attr>,
}

/// A class file (JVMS 4.1), whole: what it keeps of its bytes gives the same bytes again.
#[derive(Debug, Drop)]
pub struct ClassFile {
    pub minor: u16,
    pub major: u16,
    pub pool: Pool,
    pub access: u16,
    /// The index of the class that the file declares.
    pub this_class: u16,
    /// The index of the superclass, or 0 where there is none.
    pub super_class: u16,
    pub interfaces: Seq<u16>,
    pub fields: Seq<Member>,
    pub methods: Seq<Member>,
    pub attrs: Seq<Attr>,
}
