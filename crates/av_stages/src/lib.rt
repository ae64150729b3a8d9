//! What is known after each stage of acceptance, and where it stops in one; and the application as collection is given it.
#![tactic(auto)]

mod giving;
mod stops;

pub use giving::{AppGiven, give};
pub use stops::{refused, stop_of};
