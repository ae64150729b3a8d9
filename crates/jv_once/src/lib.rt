//! Lists in which nothing stands twice, and lemmas on them for the proofs of the crates above. There is nothing to call.
#![tactic(auto)]
