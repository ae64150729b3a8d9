//! A class with some of its members alone.
#![tactic(auto)]

mod picking;
mod reducing;

pub use reducing::reduced;
