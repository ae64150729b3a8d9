//! What the words of a command line ask for.
#![tactic(auto)]

mod calls;
mod request;
mod verify;

pub use request::{Request, request_of};
