//! The classes of a library by number: their names in order, their files, and their methods by name and descriptor.
#![tactic(auto)]

mod classes;
mod member;
mod members;
mod mentions;
mod names;
mod places;
mod read_file;
mod signature;
mod signatures;
mod sorted;
mod tables;

pub use classes::{Classes, shape_at};
pub use member::Member;
pub use members::is_open_instance;
pub use read_file::ReadFile;
pub use signature::Signature;
pub use signatures::signature_of;
pub use sorted::place_of;
pub use tables::{Tables, tables_of};
