//! The classes of a library that an application can meet are read, round after round, from a source of shapes.
#![tactic(auto)]

mod reading;
mod rounds;

pub use rounds::{Whole, read_whole};
