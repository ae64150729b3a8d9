use crate::frame::MapFrame;
use jv_types::{RawHandler, Seq};
use std::convert::Infallible;

/// An attribute (JVMS 4.7): the index of its name, and what stands in it. `C` is what is kept of a
/// `Code`: an attribute inside a `Code` has none.
#[derive(Debug, PartialEq, Eq, PartialOrd, Ord, Drop)]
pub struct Attr<C = CodeAttr> {
    pub name: u16,
    pub body: AttrBody<C>,
}

/// What stands in an attribute.
#[derive(Debug, PartialEq, Eq, PartialOrd, Ord, Drop)]
pub enum AttrBody<C = CodeAttr> {
    /// The code of a method (JVMS 4.7.3).
    Code(C),
    /// The frames of a `StackMapTable` (JVMS 4.7.4).
    Maps(Seq<MapFrame>),
    /// The bytes of every other attribute.
    Raw(Seq<u8>),
}

/// The code of a method (JVMS 4.7.3).
#[derive(Debug, PartialEq, Eq, PartialOrd, Ord, Drop)]
pub struct CodeAttr {
    pub max_stack: u16,
    pub max_locals: u16,
    pub code: Seq<u8>,
    pub handlers: Seq<RawHandler>,
    pub attrs: Seq<Attr<NoCode>>,
}

/// No value at all: the place of a `Code` in an attribute that can't have one.
pub type NoCode = Infallible;
