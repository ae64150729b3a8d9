//! The classes of a stand-in make a world with the application, which has their methods: laws.
#![tactic(auto)]

mod laws;

pub use laws::{standin_methods_are_there, standins_make_a_world};
