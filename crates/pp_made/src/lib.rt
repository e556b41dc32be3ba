//! The source that is made from a seed: an object with two functions for each number up to the seed, to measure the
//! program on.
//!
//! `made_source` is the one call. `specs/Made.antt` says which bytes the source of a seed has. They are a promise to
//! whoever compares two runs, so they change there and in `made` together; how they are made may change freely.
#![tactic(auto)]

mod made;

pub use made::made_source;
pub use pp_text::NoMemory;
