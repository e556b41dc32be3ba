//! Trees that stand for all values of a datatype up to a height.
//!
//! Trees are kept in an arena of nodes that are named by number. A node lists the constructors that it may have, each
//! with a literal, of which exactly one is true, and with a symbol for each field. A node with one constructor is a
//! known one, and a node with none stands for nothing. `specs/` says which arenas fit a circuit, what the nodes stand
//! for, and that this is a domain; here are the calls that add no gate.
#![tactic(auto)]

pub mod arena;
pub mod choices;
pub mod construct;
pub mod field;
pub mod fresh;
pub mod laws;
pub mod look;
pub mod possible;
pub mod read;

pub use arena::{Alternative, BoundedTree, Node, Trees};
pub use pp_clause::NoMemory;
