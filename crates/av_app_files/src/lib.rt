//! The class files of an application: what each is refused for by itself, and how a host is read. The definitions of
//! all files in their order stand here too.
#![tactic(auto)]

mod counting;
mod file_rules;
mod reading;

pub use counting::{counted, passed};
pub use file_rules::has_wrong_version;
pub use reading::{list_names, read_bytes};
