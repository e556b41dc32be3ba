//! Propagation of units with two watched literals.
//!
//! A `Watch` is a trail over clauses (`pp_trail`) that finds out which clauses leave no other choice without reading
//! all of them. Each clause watches two of its literals, and is looked at when one of them becomes false.
//! `specs/Watching` has what holds of the watched literals all the time. Which literals a clause watches, and in which
//! order clauses are looked at, may be changed.
#![tactic(auto)]

mod attaching;
mod closing;
mod finding;
mod head;
mod levels;
mod lists;
mod state;
mod visiting;
pub mod watch;
mod watcher;

pub use std::alloc::AllocError as NoMemory;
pub use watch::Watch;
