//! Literals, clauses, assignments and logs of resolution.
//!
//! `Lit`, `Clause` and `Clauses` are what the circuits write and the solver reads; `Log` is the evidence that
//! the solver hands out. `specs/` has the one meaning of each: a truth value under an assignment
//! `ℕ → Bool`, and what it is that a log derives; `laws` states the theorems on them. The values that contracts
//! see (`Literal`, lists of literals) are final; how a clause lies in memory may be changed.
#![tactic(auto)]

pub mod assignment;
pub mod bound;
pub mod chain;
pub mod clause;
pub mod clauses;
pub mod laws;
pub mod lit;
pub mod lits;
pub mod log;
pub mod spent;

pub use assignment::Assignment;
pub use bound::{greatest_var, raised};
pub use chain::Chain;
pub use clause::{Clause, is_ascending};
pub use clauses::Clauses;
pub use lit::Lit;
pub use lits::Lits;
pub use log::{Lemma, Log};
pub use spent::Spent;
pub use std::alloc::AllocError as NoMemory;
