//! What is learnt from a false clause.
use pp_clause::{Lemma, Lit};

/// What is learnt from a false clause.
#[derive(Drop)]
pub struct Learnt {
    /// A clause that is false under the trail, and how it is derived.
    pub lemma: Lemma,
    /// The literal of the clause that the steps from `start` on made false.
    pub literal: Lit,
    /// How many first steps it takes to make the other literals false.
    pub back: u32,
}
