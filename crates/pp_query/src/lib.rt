//! Queries: the search for arguments that fail a check, and the proof that no guess run fails it.
//!
//! `query_of` makes the circuit of a round (`pp_symbolic`), gives the clauses of what it asks to the solver
//! (`pp_cdcl`), and answers a model where there is one. `search` asks of the run, over trees up to a height
//! (`pp_bounded`), and reads the arguments off the model. `prove` asks of the guess runs, over named trees
//! (`pp_named`): the check is proved where there is no model. A plain descent is proved without a query, and so is a
//! check where `pp_closure` refutes by cases that a guess run fails it; where it refutes that a run does, there are no
//! arguments that fail it (`refuting`). The search tries cases before the solver where the check's function meets no
//! datatype (`words`), and else where the solver has spent its lemmas. `comparisons` names the variables that the
//! solver decides first. `demanded_guesses_refuted` refutes guess runs too, over steps in which calls are unfolded on
//! demand (`demanding`, `unfolded`), so that its cost doesn't grow with the round. `specs/Reply` and `specs/Question` say what is asked and replied, `specs/Found` and
//! `specs/Proofs` what the answers mean.
#![tactic(auto)]

mod asking;
mod compared;
mod demanding;
mod found;
mod fronts;
mod proof;
mod proving;
mod query;
mod question;
mod reading;
mod refuting;
mod reply;
mod searching;
mod unfolded;
mod words;

pub use compared::comparisons;
pub use found::Found;
pub use fronts::{demanded_guesses_refuted, guesses_refuted, runs_refuted};
pub use proof::Proof;
pub use proving::prove;
pub use query::{Query, query_of};
pub use question::{Question, question_of};
pub use reply::Reply;
pub use searching::search;
pub use std::alloc::AllocError as NoMemory;
