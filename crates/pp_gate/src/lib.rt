//! Circuits whose gates are shared, their clauses, and words of 32 literals.
//!
//! `Circuit` is a list of gates, one for each variable, no two of them alike; each call adds at most one. A literal's
//! value depends on the assignment alone (`ℕ → Bool`, as in `pp_clause`), never on the circuit: an assignment is of
//! use where it gives each gate its value (`Gives`). `specs/` has the meaning of gates, what lists of gates are
//! circuits, how they grow, what literals stand on, and the laws of their assignments, which `laws` states of every
//! circuit. The values that contracts see are final; in which form a gate is kept, and how it is found again, may be
//! changed.
#![tactic(auto)]

pub mod circuit;
mod clauses;
mod cnf;
mod complete;
mod cone;
pub mod gate;
pub mod laws;
mod logic;
pub mod word;

pub use circuit::Circuit;
pub use gate::Gate;
pub use pp_clause::NoMemory;
pub use word::Word;
