//! The class files of a stand-in, from the sketches of its classes.
#![tactic(auto)]

mod files;

pub use files::{Files, file_name, files_of};
