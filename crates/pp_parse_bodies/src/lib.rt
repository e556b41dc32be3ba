//! The steps of the automaton in the body of a function: its contracts, its statements and its postcondition.
//!
//! Each function whose name begins with `on_` is the step of `pp_grammar` that has its name, and its contract says so.
#![tactic(auto)]

pub mod bodies;
pub mod posts;
pub mod statements;
