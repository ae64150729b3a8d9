//! Rows of tests as text: bytes in hexadecimal, and the words of a line.
#![tactic(auto)]

mod hexadecimal;
mod words;

pub use hexadecimal::hex;
pub use words::{part, three_words, word};
