//! The law that instances by names and instances by numbers are the same.
#![tactic(auto)]

mod laws;

pub use laws::instances_go_by_dimensions;
