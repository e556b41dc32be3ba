//! The parts of a watch.
use crate::head::Head;
use crate::lists::Lists;
use pp_trail::Trail;

/// A trail over clauses, and what is known of the clauses' watched literals.
#[derive(Drop)]
pub struct State {
    /// The clauses and the trail.
    pub trail: Trail,
    /// What the clauses watch, by number less one. The clauses past these wait to be read.
    pub heads: Vec<Head>,
    /// For each literal the clauses that watch it.
    pub lists: Lists,
    /// Lengths of the trail at which a propagation found nothing more to do, in order.
    pub levels: Vec<usize>,
    /// How many steps of the trail have been visited.
    pub visited: usize,
}
