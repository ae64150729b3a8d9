//! The greatest number of dimensions of a type that is spoken of.
#![tactic(auto)]

mod codes;
mod shapes;
mod texts;
mod types;

pub use codes::greatest_in_bodies;
pub use shapes::greatest_in_shapes;
pub use texts::greatest_in_texts;
pub use types::greater;
