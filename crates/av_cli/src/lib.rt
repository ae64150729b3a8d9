//! The commands of averroes.
#![tactic(auto)]

mod calls;
mod commands;
mod top;
mod verify;

pub use av_outcome::Status;
pub use calls::{Answer, GraphError, call_graph};
pub use commands::run_with;
pub use top::stop_for_memory;
