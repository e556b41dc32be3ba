//! The steps of a trail.
use pp_clause::Lit;

/// A literal that is made true.
#[derive(Clone, Copy, PartialEq, Eq, Debug)]
pub struct Step {
    /// The literal.
    pub lit: Lit,
    /// The number of the clause that leaves no other choice. A decision has none.
    pub reason: Option<u32>,
}
