//! The loading of an application: its class files are read from a host in order of their names, counted, and held
//! against the rules on single files; then they are put in order of the classes' names.
#![tactic(auto)]

mod app_class;
mod class_rules;
pub mod laws;
mod loading;
mod name_order;
mod names;
mod next_file;
mod order;

pub use app_class::AppClass;
pub use class_rules::{has_other_name, has_reserved_name};
pub use loading::load_files;
pub use name_order::in_name_order;
pub use names::{is_module_info, is_reserved};
