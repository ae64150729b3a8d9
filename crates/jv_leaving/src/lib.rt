//! Where an instruction leaves the words of a frame, as calls: how many words it takes, and which word it leaves at
//! a place (JVMS 2.6.1, 2.6.2, 6.5).
#![tactic(auto)]

mod cells;
mod leaving;
mod moved;
mod word;

pub use leaving::Leaving;
pub use word::Word;
