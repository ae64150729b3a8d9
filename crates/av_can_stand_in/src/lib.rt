//! The stand-in of each program of which a stand-in may be asked for can be made: its world has all that the making asks
//! of it. The functions are laws: each does nothing, and its contract is the law.
#![tactic(auto)]

mod worlds;

pub use worlds::{checkable_programs_can_stand_in, collected_worlds_can_stand_in};
