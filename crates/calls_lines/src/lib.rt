//! The report of a program: the printed lines of its facts.
#![tactic(auto)]

pub mod first;
