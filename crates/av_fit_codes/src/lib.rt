//! Laws: a recipe that fits gives a code that may be put and finished.
#![tactic(auto)]

mod laws;

pub use laws::{few_words, fitting_recipes_are_finishable};
