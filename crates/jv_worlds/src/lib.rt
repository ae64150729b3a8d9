//! Lemmas on worlds, for the proofs of the crates above. There is nothing to call.
#![tactic(auto)]
