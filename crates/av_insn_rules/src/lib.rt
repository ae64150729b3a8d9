//! What single instructions of an application are refused for: subroutines, call sites that are linked at run time,
//! references that aren't found, of the wrong kind or inaccessible, and reflection.
#![tactic(auto)]

mod accessible;
mod keeping;
mod kinds;
mod reflection;
mod resolved;
mod walking;
mod worlds;

pub use walking::first_failing;
