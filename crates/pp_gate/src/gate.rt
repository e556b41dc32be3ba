//! Gates.

use pp_clause::Lit;

/// What gives a variable its value. Its literals are of earlier variables.
#[derive(Clone, Copy, PartialEq, Eq, Hash, Debug)]
pub enum Gate {
    /// The constant, which is always true.
    Truth,
    /// An input, which holds its own variable and may have either value.
    Input(u32),
    /// True where both are true.
    And(Lit, Lit),
    /// True where exactly one of the two is true.
    Xor(Lit, Lit),
    /// The second where the first is true, and else the third.
    Mux(Lit, Lit, Lit),
    /// True where at least two of the three are true.
    Majority(Lit, Lit, Lit),
}
