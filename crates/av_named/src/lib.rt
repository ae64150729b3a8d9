//! Which classes an application and the files of a library name.
#![tactic(auto)]

mod application;
mod codes;
mod core_names;
mod members;
mod texts;
mod types;

pub use application::application_names;
pub use members::{names_of_field, names_of_method, names_of_shape, names_of_supers, push_copies};
pub use types::push_copy;
