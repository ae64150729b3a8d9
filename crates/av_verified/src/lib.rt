//! The lines that tell of each method of an application that it verifies.
#![tactic(auto)]

mod laws;
mod lines;

pub use laws::lines_tell_methods_apart;
pub use lines::verified_lines;
