//! The class file of a sketch of a stand-in's class, and the bodies of its methods with their frames.
#![tactic(auto)]

mod codes;
mod entries;
mod file;
mod members;
mod methods;
mod pushing;
mod refusal;

pub use file::{Filed, file_of};
pub use refusal::FileRefusal;
