//! Sketches of a stand-in's classes: that of averroes/Library, those of collected classes, and collected
//! classes as they stand in its world.
#![tactic(auto)]

mod collected;
mod library;
mod placed;

pub use collected::collected_sketch;
pub use library::library_sketch;
pub use placed::in_place;
