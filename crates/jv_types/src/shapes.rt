use crate::access::Access;
use crate::copied::Copied;
use crate::desc::{Desc, MethodDesc};
use crate::name::Name;
use crate::seq::Seq;
use std::alloc::AllocError;

/// A field that a class declares (JVMS 4.5).
#[derive(Debug, PartialEq, Eq, PartialOrd, Ord, Drop)]
pub struct FieldShape {
    pub name: Name,
    pub desc: Desc,
    pub flags: Access,
}

impl Copied for FieldShape {
    fn copy(&self) -> Result<FieldShape, AllocError> {
        Ok(FieldShape {
            name: self.name.copy()?,
            desc: self.desc.copy(self.name.allocator())?,
            flags: self.flags,
        })
    }
}

/// A method that a class declares (JVMS 4.6), and whether it has code.
#[derive(Debug, PartialEq, Eq, PartialOrd, Ord, Drop)]
pub struct MethodShape {
    pub name: Name,
    pub desc: MethodDesc,
    pub flags: Access,
    pub code: bool,
}

impl Copied for MethodShape {
    fn copy(&self) -> Result<MethodShape, AllocError> {
        Ok(MethodShape {
            name: self.name.copy()?,
            desc: self.desc.copy()?,
            flags: self.flags,
            code: self.code,
        })
    }
}

/// What other classes see of a class or interface: its name and flags, its superclass (none where the file
/// names none, as that of `java/lang/Object` does), its superinterfaces and its members, and whether it
/// belongs to the application.
#[derive(Debug, PartialEq, Eq, PartialOrd, Ord, Drop)]
pub struct Shape {
    pub name: Name,
    pub flags: Access,
    pub parent: Option<Name>,
    pub interfaces: Seq<Name>,
    pub fields: Seq<FieldShape>,
    pub methods: Seq<MethodShape>,
    pub application: bool,
}

impl Copied for Shape {
    fn copy(&self) -> Result<Shape, AllocError> {
        let parent = match &self.parent {
            None => None,
            Some(name) => Some(name.copy()?),
        };
        Ok(Shape {
            name: self.name.copy()?,
            flags: self.flags,
            parent,
            interfaces: self.interfaces.copy()?,
            fields: self.fields.copy()?,
            methods: self.methods.copy()?,
            application: self.application,
        })
    }
}
