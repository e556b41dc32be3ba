//! What well-sorted typed expressions are made of, form by form.
//!
//! The crate has no code: `proofs/` has lemmas about the definitions of `pp_typed`, for the crates above it.
#![tactic(auto)]
