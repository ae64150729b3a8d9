//! The library of an application over a host: the classes that its folder has, looked up one by one.
//!
//! What proofs see of a source. The library that it tells is worked out from the files that the host tells: each name
//! under the root that ends in `.class`, with the shape that its bytes state, or with none where they are malformed. The
//! names that were asked are a history that takes no memory: of each call it has the name, and whether the call was
//! answered, whether the host failed, and whether the host has counted a read. The names answered, the last one that
//! failed and the reads that were made are read from it. What was counted is real: how many bytes the files of the names
//! that were answered have, and whether one of them is too long. Two facts tie it to the host: it is what the told files
//! of the answered names have, and the calls that the host tells are those before the source was made and the reads of
//! the history. The host is owned. One that is only lent goes in a `Lent`, which a marker type ties to the one borrow
//! that it was made from, so that code over any source leaves its caller the knowledge of what became of the host.
#![tactic(auto)]

mod counted;
mod history;
pub mod laws;
mod lent;
mod looking;
mod source;
mod worth;

pub use counted::Counted;
pub use history::Asked;
pub use lent::{Began, Borrowed, Lent};
pub use source::HostSource;
