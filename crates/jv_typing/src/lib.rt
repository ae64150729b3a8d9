//! What an instruction does to a frame, and which frames a method has (JVMS 4.10.1.4 to 4.10.1.9): the
//! definitions, their laws, and the parts of a step, which both halves of the instructions share.
#![tactic(auto)]

mod no_typing;
mod pops;
mod pushes;
mod reads;
mod rules;
mod stores;
mod typing_laws;
mod words;

pub use no_typing::NoTyping;
pub use pops::{below_cells, holds_cell};
pub use pushes::stack_with;
pub use reads::{hold_from, holds_from};
pub use rules::{RefRule, ref_rule};
pub use stores::{copied, stored};
pub use typing_laws::{maps_are_forced, moves_have_their_forms, typing_is_a_function};
pub use words::{is_reference, is_wide, push_copies};
