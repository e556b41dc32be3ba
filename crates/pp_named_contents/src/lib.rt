//! The contents of a tree that is looked at: all constructors of its datatype, each with a literal and with fields.
//!
//! `fresh_contents` makes new ones, which can be those of each value, `known_contents` those of a constructor with
//! given fields, and `keep_all` keeps the trees among the fields. In both the fields of a constructor are blank where
//! its literal is false, so two trees have one content exactly where they have the same literals and fields. Of
//! `proofs/` the crates above cite `Holdable`, `Knowing` and `Kept`.
#![tactic(auto)]

mod contents;
mod guarded;
mod keep;
mod known;

pub use contents::fresh_contents;
pub use keep::keep_all;
pub use known::known_contents;
pub use pp_clause::NoMemory;
