//! Each file of a stand-in is the text of a class, so that what is written can be read back. The functions are laws: each
//! does nothing, and its contract is the law.
#![tactic(auto)]

mod laws;

pub use laws::{files_are_classes, library_class_is_fileable};
