//! The machine: what an application does on any number of threads, beside a library of which only its
//! collected classes and members are known.
#![tactic(auto)]

mod first;
mod laws;

pub use first::start;
pub use laws::{
    frames_keep_their_kinds, instructions_are_not_wanting, raises_are_steps, steps_keep_objects,
    unseen_types_stay_above, words_go_on,
};
