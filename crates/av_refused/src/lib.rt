//! Which collected class is refused, and for which cause.
#![tactic(auto)]

mod application;
mod files;
mod unfit;

pub use application::{first_naming, names_of_classes};
pub use files::{file_of, first_missing, first_unfit, names_of_files};
