//! Bytes and the values that they spell: numbers, modified UTF-8, and the shown form of a text.
#![tactic(auto)]

mod cursor;
pub mod laws;
mod showing;
mod utf8;
mod writer;

pub use cursor::Cursor;
pub use showing::{ShownByte, shown};
pub use utf8::{BadText, text_of, units_of};
pub use writer::Writer;
