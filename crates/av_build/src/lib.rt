//! The program of an application and of what was collected for it: its classes and methods are held against their
//! rules, its main is looked up, and its instructions are counted.
#![tactic(auto)]

mod building;
mod laws;
mod typing;
mod worlds;

pub use building::build;
