//! What acceptance knows of an application that passes every rule is all that is asked of a program whose stand-in is
//! made. The functions are laws: each does nothing, and its contract is the law.
#![tactic(auto)]

mod programs;

pub use programs::{
    accepted_programs_are_checkable, collected_constructors_are_instance_methods,
    programs_are_accepted,
};
