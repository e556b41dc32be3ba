//! What a solver hands out that has spent its lemmas.

use crate::clauses::Clauses;
use crate::lits::Lits;
use crate::log::Log;

/// The evidence that a solver has spent its lemmas on these clauses and assumptions.
#[derive(Drop)]
pub struct Spent {
    /// The clauses that were to be made true.
    pub clauses: Clauses,
    /// The literals that were to be true besides.
    pub assumptions: Lits,
    /// The lemmas that were found.
    pub log: Log,
}
