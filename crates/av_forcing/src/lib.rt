//! The rules of collection over numbered classes, as rules that force facts from facts.
#![tactic(auto)]

mod classes;
mod fact;
mod members;
mod names;
mod pushing;
mod rules;
mod together;

pub use classes::push_classes;
pub use fact::RoundFact;
pub use pushing::push_fact;
pub use rules::RoundRules;
