//! Symbolic evaluation: one circuit in which a literal is true exactly where the run of a function fails a check.
//!
//! `symbolic` writes the steps of the run (`pp_compile`), leaves out what isn't needed (`pp_simplify`), performs the
//! others over the trees of a domain (`pp_build`), and answers the symbols of the arguments with the literal. Of guess
//! runs it performs all steps, which fit the estimate (`pp_guess_gates`). `specs/Frame` says what they mean.
//!
//! - `evaluating`: `symbolic`. `frame`: what it answers.
//! - `real`, `steps`: the steps of a run, and how they are performed.
//! - `guess`, `guessed`: those of guess runs.
//! - `naming`: how many values have to be named for them, which the domain is told, so that its names are short.
//! - `ownership`: the function that a check belongs to.
#![tactic(auto)]

mod evaluating;
mod frame;
mod guess;
mod guessed;
mod naming;
mod ownership;
mod real;
mod steps;

pub use evaluating::symbolic;
pub use frame::{Frame, Mode};
pub use ownership::owner;
pub use pp_clause::NoMemory;
