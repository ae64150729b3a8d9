//! What the crates that run and analyse methods ask of a world and of methods, as definitions on plain data,
//! with the calls that decide it.
#![tactic(auto)]

mod core_classes;
mod initialisers;
mod members;
mod operands;
mod types;
mod wrong;

pub use core_classes::is_as_core;
pub use initialisers::initialisers_of;
pub use members::{resolved_call, resolved_field, resolved_method};
pub use operands::{field_flags, method_flags};
pub use wrong::{first_wrong, is_right_insn};
