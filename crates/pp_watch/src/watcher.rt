//! What stands in the list of a literal.
use pp_clause::Lit;

/// A clause that watches a literal.
#[derive(Clone, Copy)]
pub struct Watcher {
    /// The clause's number.
    pub number: u32,
    /// A literal of the clause: where it is true, the clause needs no look.
    pub blocker: Lit,
    /// Another literal of the clause, where it has no more than this one, the blocker and the one that is watched here:
    /// then the clause is read only to watch another. Else the watched literal itself.
    pub third: Lit,
}
