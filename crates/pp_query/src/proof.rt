//! What a proof answers.

use pp_clause::Spent;

/// No guess run fails the check; that isn't known, since the circuit of the guess runs has a model; or the evidence
/// that the solver has spent its lemmas.
#[derive(Drop)]
pub enum Proof {
    Proved,
    NotProved,
    Spent(Spent),
}
