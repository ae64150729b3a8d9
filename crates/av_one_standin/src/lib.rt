//! Each class of a stand-in is just one: what is said of it leaves no choice, and no two have one name. The functions are
//! laws: each does nothing, and its contract is the law.
#![tactic(auto)]

mod kinds;
mod names;

pub use kinds::{any_classes_have_one, collected_classes_have_one, parts_have_one};
pub use names::standin_classes_have_one_name;
