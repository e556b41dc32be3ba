//! The law of rounds that are passed over, as the contract of a function that does nothing.

ghost use Rattle.pp_verify.specs.Laws.{RepeatedAreAlike};

/// Where no call of a function is left to unfold in a round, the next round finds the same of each of its checks, is
/// closed where this one is, and has the same guess runs: so it may be passed over, and no proof is left out. It does
/// nothing: its contract is the law.
pub fn repeated_are_alike()
    ensures { RepeatedAreAlike }
{}
