//! Completeness of the automaton: what is spelled, it answers.
//!
//! `proofs/Complete.antt` ends with the theorem `complete`. Lemmas alone: the crate has no code.
#![tactic(auto)]
