//! The form that `calls` takes, a class with fields and methods over ints, itself and
//! `java/lang/Object`, and its reader.
#![tactic(auto)]

mod attributes;
mod class_of_fields;
mod class_of_flags;
mod class_of_heads;
mod class_of_labels;
mod class_of_methods;
mod class_of_outline;
mod class_of_places;
mod class_of_pool;
mod class_of_targets;
mod class_of_types;
mod code_content;
mod code_steps;
mod fields;
mod layout;
mod methods;
mod number;
pub mod object_class;
mod opcode;
mod outline;
mod pool;
mod read;
mod read_error;
mod target;
mod walk;
mod walk_effects;
mod walk_steps;

pub use class_of_outline::{class_of, one_class_of};
pub use layout::{one_outline, read_outline};
pub use outline::{Entry, Outline, RawField, RawMethod};
pub use read::{FILE_LIMIT, class_in_range, one_object_class, read_object_class};
pub use read_error::ReadError;
pub use walk::walk_depths;
