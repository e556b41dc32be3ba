//! Samples of bounded trees: a table of eight datatypes, and the calls of the domain at trees that are low enough for
//! each to have its room. With them stands what the programs share that try and measure such trees: what is asked of
//! the inputs so that symbols stand for given values (`asking`), what the solver makes of it (`solving`), and the words
//! of a line (`words`).
//!
//! `specs/Sample` has the table and what is low enough, `specs/Kept` what a tree keeps from call to call.
#![tactic(auto)]

pub mod asking;
pub mod looks;
pub mod pair;
pub mod reading;
pub mod solving;
pub mod table;
pub mod trees;
pub mod words;

pub use pp_clause::NoMemory;
