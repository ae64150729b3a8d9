use jv_types::{Copied, Seq};
use std::alloc::AllocError;

/// An item of the constant pool (JVMS 4.4). Numbers that name another item are indices of the pool,
/// which begin at 1.
#[derive(Debug, PartialEq, Eq, PartialOrd, Ord, Drop)]
pub enum PoolItem {
    /// A text, as the bytes of its modified UTF-8 (JVMS 4.4.7).
    Utf8(Seq<u8>),
    Integer(i32),
    /// A float, as its bits (JVMS 4.4.4).
    Float(u32),
    Long(i64),
    /// A double, as its bits (JVMS 4.4.5).
    Double(u64),
    /// A class or interface by its name, or an array by its descriptor (JVMS 4.4.1).
    Class(u16),
    /// A constant of the type `String`, by its text (JVMS 4.4.3).
    Text(u16),
    /// A field, by its class and its name and descriptor (JVMS 4.4.2).
    Field(u16, u16),
    /// A method of a class, by the class and its name and descriptor (JVMS 4.4.2).
    Method(u16, u16),
    /// A method of an interface, by the interface and its name and descriptor (JVMS 4.4.2).
    InterfaceMethod(u16, u16),
    /// A name and a descriptor (JVMS 4.4.6).
    NameAndType(u16, u16),
    /// A method handle, by its kind from 1 to 9 and its member (JVMS 4.4.8).
    MethodHandle(u8, u16),
    /// A method type, by its descriptor (JVMS 4.4.9).
    MethodType(u16),
    /// A dynamic call site, by its place among the bootstrap methods and its name and descriptor
    /// (JVMS 4.4.10).
    InvokeDynamic(u16, u16),
    /// The second index of a `Long` or `Double`, which names nothing (JVMS 4.4.5).
    Hole,
}

impl Copied for PoolItem {
    fn copy(&self) -> Result<PoolItem, AllocError> {
        Ok(match self {
            PoolItem::Utf8(text) => {
                let copied = Vec::from_slice(text.allocator(), text.as_slice())?;
                PoolItem::Utf8(Seq::from_vec(copied))
            }
            PoolItem::Integer(number) => PoolItem::Integer(*number),
            PoolItem::Float(bits) => PoolItem::Float(*bits),
            PoolItem::Long(number) => PoolItem::Long(*number),
            PoolItem::Double(bits) => PoolItem::Double(*bits),
            PoolItem::Class(name) => PoolItem::Class(*name),
            PoolItem::Text(text) => PoolItem::Text(*text),
            PoolItem::Field(class, pair) => PoolItem::Field(*class, *pair),
            PoolItem::Method(class, pair) => PoolItem::Method(*class, *pair),
            PoolItem::InterfaceMethod(class, pair) => PoolItem::InterfaceMethod(*class, *pair),
            PoolItem::NameAndType(name, desc) => PoolItem::NameAndType(*name, *desc),
            PoolItem::MethodHandle(kind, member) => PoolItem::MethodHandle(*kind, *member),
            PoolItem::MethodType(desc) => PoolItem::MethodType(*desc),
            PoolItem::InvokeDynamic(bootstrap, pair) => PoolItem::InvokeDynamic(*bootstrap, *pair),
            PoolItem::Hole => PoolItem::Hole,
        })
    }
}
