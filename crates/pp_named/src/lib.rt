//! Trees that are named: a domain whose trees are expanded where they are looked at. It isn't exact: a tree stands for
//! the value that a naming gives the number of its name.
//!
//! `domain` says which call stands where; `pp_named_trees/specs/Meaning` says what such a domain means.
#![tactic(auto)]

mod domain;
mod named;

pub use named::Named;
pub use pp_clause::NoMemory;
pub use pp_named_trees::NamedTree;
