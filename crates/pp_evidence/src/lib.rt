//! The evidence that a solver has spent its lemmas on a query, the search for arguments that fail a check or the proof
//! that no guess run fails it: definitions alone, which queries and the report of all checks both cite.
//! `specs/Evidence` has them.
#![tactic(auto)]

pub use std::alloc::AllocError as NoMemory;
