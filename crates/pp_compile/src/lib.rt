//! Compiling: an expression's steps are written behind those that stand.
//!
//! The steps are exactly those of `pp_steps`' definitions: `specs/Written` says how a piece is written. So which steps
//! there are is changed in `pp_steps`, and here only with it.
//!
//! - `run`: the run of a function: its arguments, precondition, measure, body and postcondition.
//! - `guess`: the guess run of a function, round after round.
//! - `moves`: the guess run of a function, whose calls are unfolded one by one.
//! - `agree`: the agreement of open calls of one function.
//! - `standing`: the open calls of a list of steps.
//! - `calls`: calls that are followed: precondition, measure, whether it goes down, body; and calls from the own frame.
//! - `open_calls`: calls that are left open.
//! - `exprs`: expressions, an arm for each form.
//! - `operators`: operators with two operands, those that can fail or skip one among them, and two branches.
//! - `cases`: the cases of a match, one after another.
//! - `patterns`: the tests of a pattern, and what it binds.
//! - `emit`: single steps, demands and choices.
//! - `work`: the steps so far, and what a piece leaves.
#![tactic(auto)]

mod agree;
mod calls;
mod cases;
mod emit;
mod exprs;
mod guess;
mod moves;
mod open_calls;
mod operators;
mod patterns;
mod run;
mod standing;
mod work;

pub use guess::{compile_guess, grown};
pub use moves::{Unfolding, moved, start_alone};
pub use run::compile_run;
pub use standing::{StandingCall, standing_calls};
pub use std::alloc::AllocError as NoMemory;
pub use work::{Guess, Run};
