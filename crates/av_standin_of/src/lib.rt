//! What a stand-in for a library is: its classes, the code of their methods, their files, and the world that they make
//! with the application.
#![tactic(auto)]

mod laws;
mod standin;

pub use laws::files_stand_in_order;
pub use standin::{Standin, StandinFile};
