//! Code is built: instructions with their frames, branches that land later, handlers, and a stack map with the
//! frames at targets.
#![tactic(auto)]

mod builder;
mod code;
mod entries;
mod map_frames;
mod map_types;
mod maps;
mod plan;
mod pushing;
mod refs;
mod starts;
mod step;
mod targets;
mod words;

pub use builder::CodeBuilder;
