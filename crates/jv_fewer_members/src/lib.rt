//! The law of a world and a part of it: where classes keep some of their members, with all that an application can
//! meet among them, references resolve and calls select in the part what they do in the whole.
#![tactic(auto)]

mod access;
mod hierarchy;
mod resolution;
mod selection;

pub use access::{access_stays, refusals_stay};
pub use hierarchy::{classes_stay, instances_stay, parts_are_worlds, supertypes_stay};
pub use resolution::{
    fields_resolve_to_kept, interface_methods_resolve_to_kept, methods_resolve_to_kept,
};
pub use selection::calls_select_kept;
