//! The world that the classes of a stand-in make with the application.
#![tactic(auto)]

mod worlds;

pub use worlds::standin_world;
