//! The code of a stand-in's methods, put into a builder by recipes.
#![tactic(auto, using(av_templates::proofs::Adding::with_both))]

mod arrays;
mod calls;
mod core_items;
mod fields;
mod objects;
mod recipes;
mod rows;

pub use recipes::{build_recipe, put_item, put_recipe};
