//! What the classes of an application and of what it can meet of a library are refused for by their supertypes: a
//! class above itself, a supertype of the wrong kind, and a final method that is overridden.
#![tactic(auto)]

mod finals;
mod least;
mod refusal;
mod whole;

pub use refusal::Unsound;
pub use whole::whole_world;
