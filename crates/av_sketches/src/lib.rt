//! Sketches of a stand-in's classes: their members, and for each method with code a recipe that says which code it has.
#![tactic(auto)]

mod sketch;

pub use sketch::{Callee, HolderField, Item, Recipe, Sketch, SketchedMethod};
