use jv_types::{Body, Copied, Name};
use std::alloc::AllocError;

/// The code of a method of the application: its class, its place among the methods of the class, and the code.
#[derive(Debug, PartialEq, Eq, PartialOrd, Ord, Drop)]
pub struct MethodBody {
    pub class: Name,
    pub index: u16,
    pub body: Body,
}

impl Copied for MethodBody {
    fn copy(&self) -> Result<MethodBody, AllocError> {
        Ok(MethodBody {
            class: self.class.copy()?,
            index: self.index,
            body: self.body.copy()?,
        })
    }
}
