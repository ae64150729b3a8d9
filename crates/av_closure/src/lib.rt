//! The classes and members of a library that an application can meet, read from a source as they are wanted.
#![tactic(auto)]

mod answering;
mod collecting;
mod dimensions;
mod shapes;

pub use collecting::collect;
