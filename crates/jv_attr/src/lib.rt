//! Attributes of a class file: their text, and the frames of a stack map as they are written.
#![tactic(auto)]

mod attr;
mod fault;
mod few;
mod frame;
mod frame_reader;
mod owner;
mod reader;
mod write;

pub use attr::{Attr, AttrBody, CodeAttr, NoCode};
pub use fault::BadAttr;
pub use few::has_few;
pub use frame::{MapFrame, MapType};
pub use owner::Owner;
pub use reader::{one_attr_text, read_attr};
pub use write::put_attr;
