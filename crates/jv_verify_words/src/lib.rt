//! The instructions that work on words, by the opcode table: the frame that one of them leaves (JVMS
//! 4.10.1.9).
#![tactic(auto)]

mod insns;
mod locals;
mod pushes;
mod steps;

pub use steps::word_step;
