//! Conflict analysis of the clause-learning solver: from a clause that a trail makes false to a lemma.
//!
//! `Analysis::learn` resolves back to the first unique implication point, so its lemma is new over the clauses where
//! the trail before the last decision was closed; `Analysis::refute` resolves back to the decisions. Both answer the
//! chain of what they did, step by step. They read clauses, a trail and the places of its variables, whoever made them,
//! and keep what they work with from one conflict to the next. `specs/` has what they keep: the variables seen, and the
//! clause that these show. Which literals are left out by minimization, and which variables are met, may be changed.
#![tactic(auto)]

pub mod analysis;
mod collecting;
pub mod learnt;
mod minimizing;
mod redundant;
mod resolving;
mod seen;
mod walking;
mod work;

pub use analysis::Analysis;
pub use learnt::Learnt;
pub use std::alloc::AllocError as NoMemory;
