//! The one way of reading: what is read from the front of bytes is what a function on lists gives.
#![tactic(auto)]

mod fault;
pub mod laws;
mod number;
mod part;

pub use fault::ReadFault;
pub use number::{read_bytes, read_u1, read_u2, read_u4};
pub use part::{Part, read_counted, read_many};
