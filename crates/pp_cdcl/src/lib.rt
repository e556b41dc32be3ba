//! A solver for clauses that learns clauses from conflicts.
//!
//! `solve` answers an assignment, a log that refutes, or a log of the lemmas that it was allowed. It decides literals,
//! the assumptions first, and propagates (`pp_watch`); a false clause gives a lemma (`pp_learn`), which is a clause
//! from then on. After each 40 lemmas it restarts from the assumptions. `specs/Invariant` has what holds all the time.
//! In which order literals are decided, and when the trail is taken back further than it must be, may be changed.
#![tactic(auto)]

mod analyze;
pub mod answer;
mod backjump;
mod choosing;
mod decide;
mod decisions;
mod heap;
mod order;
mod propagate;
mod restart;
mod search;
mod solving;

pub use answer::Answer;
pub use solving::solve;
pub use std::alloc::AllocError as NoMemory;
