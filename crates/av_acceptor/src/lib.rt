//! Who accepts applications: a trait, whose meanings say what is accepted and what is refused first. What runs commands
//! stands on the trait alone; the program hands in the one that keeps the rules.
#![tactic(auto)]

mod acceptor;

pub use acceptor::Acceptor;
