//! What a trail says of a literal.

/// What a trail says of a literal.
#[derive(Clone, Copy)]
pub enum Truth {
    /// Neither the literal nor its negation stands there.
    Open,
    /// The literal stands there.
    True,
    /// Its negation stands there.
    False,
}
