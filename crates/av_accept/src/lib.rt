//! The acceptance of an application: all rules and limits in one order, and the program that passes them.
#![tactic(auto)]

mod accepting;

pub use accepting::{Rules, accept};
