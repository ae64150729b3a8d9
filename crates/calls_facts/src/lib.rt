//! The facts of a program: the least set that is closed under the rules of the analysis.
#![tactic(auto)]

pub mod first;
