//! Proper subtrees of named trees.
//!
//! `below` says whether one tree is a proper subtree of another, as far as the trees tell that were looked at so far:
//! `fields` reads the fields of a tree, `search` compares them one after another, and `comparison` goes on from each of
//! them, breadth first, until the gates are spent that a comparison may add.
#![tactic(auto)]

mod comparison;
mod fields;
mod search;

pub use comparison::below;
pub use pp_clause::NoMemory;
