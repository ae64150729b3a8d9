//! What collection is given of the classes of an application: their shapes, their codes as far as they decode, and the
//! types that their stack maps name.
#![tactic(auto)]

mod codes;
mod given;
pub mod laws;
mod maps;
mod methods;

pub use given::{Given, given_of};
