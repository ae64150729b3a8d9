//! A world of classes and interfaces: names by number, subtypes, and which types are instances of which.
#![tactic(auto)]

mod causes;
mod closure;
mod instance;
mod links;
mod lists;
mod members;
mod names;
mod numbered;
mod refusal;
mod whole;
mod world;

pub use causes::{is_final, is_interface};
pub use instance::is_array_super;
pub use numbered::are_numbered;
pub use refusal::HierRefusal;
pub use whole::whole_classes;
pub use world::World;
