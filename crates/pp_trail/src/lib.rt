//! Trails of literals over clauses.
//!
//! A `Trail` has clauses and steps, each a literal that is made true. A step is a decision, or it names the clause that
//! leaves no other choice. `specs/Trail` has what a trail is; contracts see a `Trail` as its clauses, its steps and the
//! greatest variable. Who finds the steps that have reasons isn't said here (`pp_watch` does). How places and truths
//! are looked up may be changed; that a trail tells the places of variables is part of its contract, since what is
//! learnt asks for them.
#![tactic(auto)]

pub mod marks;
pub mod step;
pub mod trail;
mod truth;

pub use marks::Mark;
pub use std::alloc::AllocError as NoMemory;
pub use step::Step;
pub use trail::Trail;
