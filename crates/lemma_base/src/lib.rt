//! Lemmas on tests, numbers and lists that several crates prove with and std doesn't have. No code.
//!
//! `proofs/` has a module for each kind of thing that they are about. A lemma is named by what it
//! gives, as std's are: `≤ℤ_trans`, `All-map_back`.

#![tactic(auto)]
