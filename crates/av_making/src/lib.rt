//! A stand-in for a library, from the sketches of its classes.
#![tactic(auto)]

mod making;

pub use making::make_standin;
