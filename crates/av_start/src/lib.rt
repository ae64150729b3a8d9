//! What acceptance asks last: the main class, where one is named (rule 20), and how many instructions there are.
#![tactic(auto)]

mod instructions;
mod main_desc;
mod mains;

pub use instructions::has_too_many;
pub use mains::start_of;
