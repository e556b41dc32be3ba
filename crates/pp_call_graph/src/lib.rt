//! The groups of the functions of a program, found from the typed functions before these are translated.
//!
//! `specs/TypedCalls` says which functions of the program a typed function calls at the type arguments of an instance,
//! and `specs/Groups` of which functions [`groups_at`] finds the groups. How calls are found may change freely.
//! `proofs/Grouped` reads from the groups which functions are of one group.
#![tactic(auto)]

mod calls;
mod groups;

pub use groups::groups_at;
pub use std::alloc::AllocError as NoMemory;
