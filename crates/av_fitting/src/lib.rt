//! When what was put into a builder of code may be finished, from facts of single instructions.
#![tactic(auto)]

mod laws;

pub use laws::fit_code_may_be_finished;
