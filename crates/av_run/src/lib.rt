//! The top call of the program: its commands, with the one acceptor of applications that keeps every rule.
#![tactic(auto)]

mod top;

pub use av_cli::{Status, stop_for_memory};
pub use top::run;
