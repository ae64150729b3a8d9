//! Laws: the codes of a stand-in's classes may be put and finished.
#![tactic(auto)]

mod laws;

pub use laws::{finishable_recipes_have_few_words, standin_codes_are_finishable};
