//! What follows of estimates: each function does nothing, and its contract is the law. `specs/Laws` states them.
#![tactic(auto)]

ghost use Rattle.pp_estimate_laws.specs.Laws.{GrowsWithDepth, GrowsWithRounds, SumsRounds};

/// Below the greatest number of 64 bits the estimate is the sum of the rounds up to the check's own, each of which is
/// the sum of its parts. It does nothing: its contract is the law.
pub fn sums_rounds()
    ensures { SumsRounds }
{}

/// A later round is estimated at no less. It does nothing: its contract is the law.
pub fn grows_with_rounds()
    ensures { GrowsWithRounds }
{}

/// With higher arguments a round is estimated at no less. It does nothing: its contract is the law.
pub fn grows_with_depth()
    ensures { GrowsWithDepth }
{}
