//! The steps of the automaton in types and in the heads of classes, functions and objects.
//!
//! Each function whose name begins with `on_` is the step of `pp_grammar` that has its name, and its contract says so.
#![tactic(auto)]

pub mod headers;
pub mod types;
