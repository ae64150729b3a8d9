//! Laws: the limits that a source counts by the files of the names that it answered are those of the library that the
//! application meets.
#![tactic(auto)]

mod laws;

pub use laws::counted_limits_are_limits;
