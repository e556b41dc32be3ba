//! The builder: it performs steps over a domain, so that each step's value has a symbol.
//!
//! `open_all` makes the symbols of a run's arguments, of which nothing is known but their heights. `build` performs the
//! steps behind those that have symbols: `specs/Built` says when it can, and what its registers tell. Where values obey
//! the steps (`pp_steps`), a step's register stands for its value as far as the registers of the operands on which the
//! value depends do; so the parts of a run that aren't reached may stand for nothing. In a domain that isn't
//! exact each register stands for its step's value, as soon as a naming names all values and their fields.
//! How a step is performed may change within the number of gates that `pp_steps` allows it.
//!
//! - `perform`: `build`, and one step, an arm for each form.
//! - `registers`: a register by its number, and literals of truth values.
//! - `choice`: the choice between two registers.
//! - `trees`: constructors, and what is read of trees.
//! - `unknown`: `open_all`, symbols of which nothing is known for the parameters of a function.
//!
//! What operators make of symbols, and whether a measure goes down, stands in `pp_build_operators`.
#![tactic(auto)]

mod choice;
mod perform;
mod registers;
mod trees;
mod unknown;

pub use perform::build;
pub use pp_clause::NoMemory;
pub use unknown::open_all;
