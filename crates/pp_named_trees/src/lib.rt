//! Trees that are named: a tree is a datatype and a word for a number, and its constructors and fields come in when it
//! is looked at.
//!
//! A naming gives values their numbers; under an assignment a tree stands for the value that has the number of its
//! name. `specs/Meaning` says which circuits fit such trees and that this is a domain, `specs/Laws` that the laws of a
//! domain hold, and `specs/Instances` what its condition says: trees of a datatype have one name exactly where they
//! have one content, and a tree comes after its fields. Here are the calls that look at names alone.
#![tactic(auto)]

pub mod arena;
pub mod find;
pub mod fresh;
pub mod names;

pub use arena::{Alternative, Expansion, Level, NamedTree, NamedTrees, Node};
pub use pp_clause::NoMemory;
