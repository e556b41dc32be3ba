//! What a clause watches.
use pp_clause::Lit;

/// The two literals that a clause watches. A clause with one literal watches it twice.
#[derive(Clone, Copy)]
pub struct Head {
    /// The one literal.
    pub first: Lit,
    /// The other literal.
    pub second: Lit,
    /// Where in the clause the next look for another literal begins. It may be any number.
    pub look: usize,
}
