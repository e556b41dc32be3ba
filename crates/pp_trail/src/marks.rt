//! A trail by variable, for look-ups.

/// How a variable stands in a trail.
#[derive(Clone, Copy)]
pub struct Mark {
    /// Whether the variable itself stands there, and not its negation.
    pub positive: bool,
    /// The place of its step.
    pub place: u32,
}
