//! The choice of one of two bounded trees.
#![tactic(auto)]

mod merge;

pub use merge::merge_trees;
pub use pp_clause::NoMemory;
