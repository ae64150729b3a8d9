//! What the methods of an application are refused for: native methods, codes that aren't well formed, single
//! instructions, stack maps and types; class by class in order of their names, and in the order of the file.
#![tactic(auto)]

mod accepting;
mod checking;
pub mod laws;
mod outcome;
mod places;
mod typing;

pub use accepting::accept_methods;
pub use checking::check_method;
pub use outcome::MethodStop;
pub use typing::frames_of_method;
