//! Bounded trees: a domain whose trees stand for all values up to a height, exactly.
#![tactic(auto)]

mod bounded;
mod domain;

pub use bounded::Bounded;
pub use pp_bounded_trees::BoundedTree;
pub use pp_clause::NoMemory;
