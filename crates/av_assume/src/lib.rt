//! What a library may do beside an application: the assumption that the whole analysis rests on, and the runs of a
//! program with any such library.
#![tactic(auto)]

mod laws;

pub use laws::{main_may_be_entered, runs_keep_objects, threads_may_begin};
