//! The steps of the automaton in patterns.
//!
//! Each function whose name begins with `on_` is the step of `pp_grammar` that has its name, and its contract says so.
#![tactic(auto)]

pub mod patterns;
