//! Two folders have one application and one library: whatever classes, bodies and names are read off them, the same is
//! collected, refused and counted. The functions are laws: each does nothing, and its contract is the law.
#![tactic(auto)]

mod applications;
mod collections;

pub use applications::{applications_are_one, classes_have_one_shape, libraries_are_one};
pub use collections::{collection_is_one, same_applications_collect_alike};
