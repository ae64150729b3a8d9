//! How a command ends: the outcomes, their statuses, and what is told of them; and texts that are handed to a sink.
#![tactic(auto)]

mod handing;
mod outcome;
mod pieces;
mod status;
mod telling;

pub use handing::{write_about, write_lines, write_shown, write_whole};
pub use outcome::Outcome;
pub use pieces::{Piece, write_pieces};
pub use status::Status;
pub use telling::{finish, write_outcome};
