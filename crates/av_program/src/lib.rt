//! What the acceptance of an application answers: the accepted program, or why there is none.
#![tactic(auto)]

mod accept_stop;
mod program;

pub use accept_stop::AcceptStop;
pub use program::Program;
