//! What the condition of a domain of named trees says of a tree that is looked at: it agrees with earlier ones of its
//! datatype, and comes after its fields.
//!
//! `agreements` and `in_order` are circuits for it, `make_levels` makes the levels that the order asks for, and
//! `specs/Condition` says what the two circuits together mean. Of `proofs/` the crates above cite `Conditions` and
//! `Levelling`.
#![tactic(auto)]

mod agreement;
mod levels;
mod order;

pub use agreement::agreements;
pub use levels::make_levels;
pub use order::{in_order, is_one_group};
pub use pp_clause::NoMemory;
