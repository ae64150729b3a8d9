//! Laws of the verifier's definitions: an instruction leads to one frame, a method has one table of frames,
//! and a method that has one is kind safe (JVMS 4.10.1). Each function does nothing, and its contract is the
//! law.
#![tactic(auto)]

mod formed;
mod kind_safe;
mod one_frame;
mod one_table;

pub use formed::{frames_are_formed, steps_keep_form};
pub use kind_safe::{
    assignable_frames_say_no_more, type_safe_is_kind_safe, typed_steps_leave_kinds,
};
pub use one_frame::{initial_frame_is_one, typing_has_one_frame};
pub use one_table::{
    forced_frame_is_one, map_frames_rise, table_fails_nowhere, table_is_forced, table_is_one,
};
