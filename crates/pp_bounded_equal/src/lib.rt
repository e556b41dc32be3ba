//! Whether two bounded trees stand for one value, and whether one stands for a proper subtree of the other's.
#![tactic(auto)]

mod below;
mod equal;

pub use below::below_trees;
pub use equal::equal_trees;
pub use pp_clause::NoMemory;
