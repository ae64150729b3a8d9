//! One round of collection: what an application can meet of the files of a library that were read so far.
#![tactic(auto)]

mod class_items;
mod collecting;
mod core_methods;
mod listing;
mod references;
mod seeds;
mod whole;

pub use av_tables::ReadFile;
pub use class_items::ClassItems;
pub use collecting::collected_over;
