//! Verification types and frames: which may stand for which, and the frames of a method's stack map (JVMS
//! 4.7.4, 4.10.1).
#![tactic(auto)]

mod assignability;
mod descriptors;
mod entry;
mod fault;
mod laws;
mod map_frames;
mod map_types;
mod maps;
mod words;

pub use assignability::{are_assignable, assignable, frame_assignable};
pub use descriptors::{desc_vtype, ref_vtype};
pub use entry::initial_frame;
pub use fault::BadMap;
pub use laws::{
    assignability_is_reflexive, assignability_is_transitive, maps_have_one_answer,
    written_frames_have_types,
};
pub use maps::frames_of;
pub use words::in_words;
