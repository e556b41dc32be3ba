//! What is known of the instances of a program: each is one of a declaration, at as many sorts without parameters as
//! that has type parameters, and the types of these sorts are instances too.
//!
//! It has no code: `specs/Proper` says it, and `proofs/` why it is so.
#![tactic(auto)]
