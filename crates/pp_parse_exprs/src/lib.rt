//! The steps of the automaton in expressions: where an operand is wanted and behind one, behind names and numbers, in
//! `if` and `match`, and where what is open round an expression is closed by the token behind it.
//!
//! Each function whose name begins with `on_` is the step of `pp_grammar` that has its name, and its contract says so.
#![tactic(auto)]

pub mod claims;
pub mod closing;
pub mod infix;
pub mod matches;
pub mod names;
pub mod operands;
