//! The verifier: the one table of frames of a method, where it has one (JVMS 4.10.1).
#![tactic(auto)]

mod bodies;
mod checks;
mod codes;
mod forced;
mod goes;
mod handlers;
pub mod laws;
mod near;
mod next;
mod no_body;
mod no_table;
mod refusal;
mod rows;
mod step;
mod table;
mod verifying;

pub use bodies::body_of;
pub use no_body::NoBody;
pub use refusal::VerifyRefusal;
pub use verifying::{verify, verify_body};
