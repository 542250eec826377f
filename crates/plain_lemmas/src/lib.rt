//! Lemmas on tests, numbers and lists that proofs of several crates cite.
#![tactic(auto)]
