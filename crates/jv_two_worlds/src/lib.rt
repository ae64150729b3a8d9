//! The law of two worlds: where the classes of a world, with all above them, stand in another one under other
//! numbers, as the same classes, the two agree on supertypes, resolution, access, overriding and selection.
#![tactic(auto)]

mod access;
mod hierarchy;
mod resolution;
mod selection;
mod standing;

pub use access::{access_agrees, packages_agree, refusals_agree};
pub use hierarchy::{classes_agree, instances_agree, subtypes_agree, superclasses_agree};
pub use resolution::{
    fields_resolve_alike, interface_methods_resolve_alike, methods_resolve_alike,
};
pub use selection::{calls_select_alike, overriding_agrees};
pub use standing::worlds_stand_in;
