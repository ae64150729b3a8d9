//! The machine on which the promises about runs are stated.
#![tactic(auto)]

pub mod first;
