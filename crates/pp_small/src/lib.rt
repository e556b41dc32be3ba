//! Arguments that fail a check, by runs on small ones.
//!
//! `small_failures` tries lists of arguments, the cheapest first (`candidates`, `levels`, `lists`), and runs the
//! function on each, within a number of runs and of turns of the machine (`searching`): a run tells which check fails,
//! so one search serves all checks of a function. Which lists it tries no clause says: each is tested before it is run
//! (`tested`), so what is found are arguments of the parameters' sorts and of at most the asked height, and their run
//! fails the very check. That nothing is found says nothing. `least_fuel` tells the least fuel with which given
//! arguments fail their check (`least`). `specs/Failing` says what failing is.
#![tactic(auto)]

mod candidates;
mod failing;
mod failures;
mod least;
mod levels;
mod lists;
mod searching;
mod tested;

pub use failures::{Failure, Failures};
pub use least::least_fuel;
pub use searching::small_failures;
pub use std::alloc::AllocError as NoMemory;
pub use tested::are_arguments;

#[cfg(test)]
mod tests;
