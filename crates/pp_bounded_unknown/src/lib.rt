//! Bounded trees of which nothing is known but their height.
#![tactic(auto)]

mod unknown;

pub use pp_clause::NoMemory;
pub use unknown::unknown_tree;
