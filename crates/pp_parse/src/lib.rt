//! The parser: from the tokens of a source to the one unit that they spell.
//!
//! [`parse`] runs the automaton of `pp_grammar` over the tokens. What is open lies on a stack, so nothing here
//! recurses on what is nested in the source. Its steps stand in the crates below, by what they read: types, patterns,
//! expressions, bodies and items. `specs/Answers.antt` says what the answers are by the automaton, and
//! `specs/Spelled.antt` what they mean in the words of the grammar.
#![tactic(auto)]

mod fault;
mod modes;
mod reading;
mod steps;
mod unused;

pub use fault::ParseFault;
pub use pp_tree::NoMemory;
pub use reading::parse;
