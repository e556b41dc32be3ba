//! What symbolic evaluation answers.

use pp_clause::Lit;
use pp_domain::Symbols;

/// What is evaluated: runs, whose calls are followed as far as the fuel goes, or guess runs, whose unfinished calls are
/// answered by a table.
#[derive(Clone, Copy, PartialEq, Eq)]
pub enum Mode {
    Real,
    Guess,
}

/// The symbols of the arguments; the literal that the check fails, in mode `Real` true exactly where the run on them
/// does; and the literal that is true where all that was supposed holds: of the inputs, and of the open calls of guess
/// runs.
#[derive(Drop)]
pub struct Frame<T> {
    pub arguments: Symbols<T>,
    pub fails: Lit,
    pub circuit_ok: Lit,
}
