//! Programs of well-sorted typed units are valid: lemmas, for the crate that makes the program.
//!
//! The crate has no code.
#![tactic(auto)]
