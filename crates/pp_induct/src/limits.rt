//! What is asked of the work on checks.

/// Above this estimate a round that is above the asked number of gates, too, is left to the fronts, which build no
/// whole circuit: what the estimate says of their cost is nothing. Up to it such a round ends the check.
pub const FRONTED_ABOVE: u64 = 2_000_000;

/// How far each check is worked on: in rounds 0 to `rounds` (at most 12), on arguments of height at most `depth` (1 to
/// 6), with at most so many lemmas a query (1 to 1,000,000), and by whole queries in rounds whose estimate is at most
/// `gates` (1 to 4,000,000).
#[derive(Clone, Copy, PartialEq, Eq, Debug)]
pub struct Limits {
    pub rounds: u32,
    pub depth: u32,
    pub lemmas: u64,
    pub gates: u64,
}
