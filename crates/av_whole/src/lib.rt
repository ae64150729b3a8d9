//! The world of the whole classes of a list: those that have all their supertypes, of the right kinds and without a
//! circle.
#![tactic(auto)]

mod laws;
mod picking;

pub use laws::worlds_are_whole;
pub use picking::whole_world;
