//! A source of shapes is asked what a library has under a name, and the names that were asked for are kept.
#![tactic(auto)]

mod look;
mod names;

pub use look::{Look, ask};
pub use names::NameList;
