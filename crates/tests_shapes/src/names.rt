use jv_desc::{field_desc, method_desc};
use jv_types::{Desc, FieldRef, MethodRef, Name, RefType};
use std::alloc::{AllocError, Global};
use std::test::Fail;

/// A name of a text.
pub fn name_of(alloc: Global, text: &str) -> Result<Name, AllocError> {
    Name::from_slice(alloc, text.as_bytes())
}

/// The name and the descriptor of a member of a text such as `m:(I)V`, where `()V` may be left out.
pub fn member_of(text: &str) -> (&str, &str) {
    text.split_once(':').unwrap_or((text, "()V"))
}

/// An array type, of its descriptor.
fn array_of(alloc: Global, text: &str) -> Result<RefType, Fail> {
    match field_desc(alloc, text.as_bytes())? {
        Desc::Ref(of) => Ok(of),
        Desc::Prim(_) => Err(Fail::from("a reference type")),
    }
}

/// A type of a text: an array's descriptor, or a class's name.
pub fn type_of(alloc: Global, text: &str) -> Result<RefType, Fail> {
    if text.starts_with('[') {
        return array_of(alloc, text);
    }
    Ok(RefType::Class(name_of(alloc, text)?))
}

/// A reference to a method, of a text such as `a/C.m:(I)V`, where the class may be an array, and whether it is one
/// to a method of an interface.
pub fn method_ref_of(alloc: Global, text: &str, interface: bool) -> Result<MethodRef, Fail> {
    let (class, member) = text.split_once('.').unwrap_or((text, ""));
    let (name, desc) = member_of(member);
    Ok(MethodRef {
        class: type_of(alloc, class)?,
        name: name_of(alloc, name)?,
        desc: method_desc(alloc, desc.as_bytes())?,
        interface,
    })
}

/// A reference to a field, of a text such as `a/C.x:La/T;`.
pub fn field_ref_of(alloc: Global, text: &str) -> Result<FieldRef, Fail> {
    let (class, member) = text.split_once('.').unwrap_or((text, ""));
    let (name, desc) = member_of(member);
    Ok(FieldRef {
        class: name_of(alloc, class)?,
        name: name_of(alloc, name)?,
        desc: field_desc(alloc, desc.as_bytes())?,
    })
}
