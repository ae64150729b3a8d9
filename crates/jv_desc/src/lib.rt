//! Field and method descriptors (JVMS 4.3): their values and their texts, both ways.
#![tactic(auto)]

mod fault;
pub mod laws;
mod letters;
mod reading;
mod showing;
mod types_read;
mod words;

pub use fault::BadDesc;
pub use letters::prim_of;
pub use showing::{show_field, show_method};
pub use types_read::{field_desc, method_desc};
pub use words::arg_words;
