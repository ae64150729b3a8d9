use crate::copied::Copied;
use crate::desc::{Desc, MethodDesc, RefType};
use crate::name::Name;
use std::alloc::AllocError;

/// A symbolic reference to a field (JVMS 4.4.2): the class that it names, and the field's name and type.
#[derive(Debug, PartialEq, Eq, PartialOrd, Ord, Drop)]
pub struct FieldRef {
    pub class: Name,
    pub name: Name,
    pub desc: Desc,
}

impl Copied for FieldRef {
    fn copy(&self) -> Result<FieldRef, AllocError> {
        Ok(FieldRef {
            class: self.class.copy()?,
            name: self.name.copy()?,
            desc: self.desc.copy(self.name.allocator())?,
        })
    }
}

/// A symbolic reference to a method (JVMS 4.4.2): the class or array type that it names, the method's name
/// and descriptor, and whether it is a reference to a method of an interface.
#[derive(Debug, PartialEq, Eq, PartialOrd, Ord, Drop)]
pub struct MethodRef {
    pub class: RefType,
    pub name: Name,
    pub desc: MethodDesc,
    pub interface: bool,
}

impl Copied for MethodRef {
    fn copy(&self) -> Result<MethodRef, AllocError> {
        Ok(MethodRef {
            class: self.class.copy(self.name.allocator())?,
            name: self.name.copy()?,
            desc: self.desc.copy()?,
            interface: self.interface,
        })
    }
}
