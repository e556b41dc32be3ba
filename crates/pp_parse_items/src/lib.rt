//! The steps of the automaton between declarations: packages, imports, objects, annotations, and the words that a
//! declaration begins with.
//!
//! Each function whose name begins with `on_` is the step of `pp_grammar` that has its name, and its contract says so;
//! `specs/Shown.antt` says which state of the automaton the parser's values stand for.
#![tactic(auto)]

pub mod declarations;
pub mod items;
pub mod place;
