//! The three answers of a solver.

use pp_clause::{Assignment, Log};

/// What a solver found.
#[derive(Drop)]
pub enum Answer {
    /// An assignment that makes all clauses and assumptions true.
    Sat(Assignment),
    /// A log that refutes the clauses under the assumptions: no assignment makes them all true.
    Unsat(Log),
    /// The lemmas that were allowed, none of which refutes.
    Spent(Log),
}
