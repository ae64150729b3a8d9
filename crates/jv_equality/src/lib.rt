//! Of the plain types, `==` and `cmp` tell each value from the others: the laws, which do nothing. The
//! lemmas that they rest on stand in `proofs/`, for other crates to cite.
#![tactic(auto)]

mod equality;
mod framed;

pub use equality::{
    codes_are_told_apart, facts_are_told_apart, lists_are_told_apart, members_are_told_apart,
    refusals_are_told_apart, types_are_told_apart,
};
pub use framed::frame_at;
