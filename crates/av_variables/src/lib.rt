//! Variables: places along straight code at which one word stands, and the law that the least facts over variables are
//! the least facts.
#![tactic(auto)]

mod laws;

pub use laws::{
    moved_into_variables, packed_sets_are_closed, packed_sets_expand, pairs_stand_for_packed_facts,
};
