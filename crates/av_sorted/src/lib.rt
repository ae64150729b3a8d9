//! Names and members in the order of a stand-in's files, each once.
#![tactic(auto)]

mod members;
mod names;
mod row;

pub use members::{fields_in_order, methods_in_order};
pub use names::names_in_order;
pub use row::{Row, rows_in_order};
