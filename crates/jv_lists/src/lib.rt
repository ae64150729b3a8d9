//! Plain lemmas on lists, tests and options, for the proofs of the crates above. There is nothing to call.
#![tactic(auto)]
