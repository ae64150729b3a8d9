//! The types that objects have at run time: of what each is an instance, and what an array takes.
#![tactic(auto)]

mod instances;
mod storing;

pub use instances::{is_instance, is_of_class, is_of_named};
pub use storing::fits;
