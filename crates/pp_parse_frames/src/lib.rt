//! What parts on the stack become when they are taken together: the contracts and the head of a declaration, and the
//! lists of arguments, of types, of patterns and of cases.
//!
//! Frames are those of `pp_parse_state`, and trees are built by `pp_tree_build`; the steps of the automaton stand in
//! the crates above.
#![tactic(auto)]

pub mod contracts;
pub mod heads;
pub mod lists;
pub mod opening;
