//! Class files (JVMS 4), both ways: a class value for the bytes of a file, and its one text again.
#![tactic(auto)]

mod attributes;
mod class_file;
mod codes;
mod counts;
mod distinct;
mod fault;
mod indices;
mod kinds;
pub mod laws;
mod layout;
mod member_rules;
mod members;
mod method_codes;
mod read;
mod rules;
mod shaping;
mod text_numbers;
mod texts;
mod write;

pub use class_file::{ClassFile, Member};
pub use fault::{BadClass, WriteRefusal};
pub use method_codes::{method_code, shapes_have_code_where_methods_do};
pub use read::read_class;
pub use shaping::shape;
pub use write::write_class;
