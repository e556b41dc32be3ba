//! The decisions of a trail.
ghost use Rattle.std.specs.Prelude.{◌≡◌, ◌≤◌, ◌+◌, length, IfSome, IfNone};
ghost use Rattle.pp_cdcl.specs.Invariant.{NoDecision, IsLastDecision};

use pp_trail::Step;

/// The place of the last decision.
pub fn last_decision(trail: &[Step]) -> Option<usize>
    ensures some { IfSome result (IsLastDecision trail.now) }
    ensures none { IfNone result (NoDecision trail.now 0 (length trail.now)) }
{
    let mut place = trail.len();
    while place > 0 {
        place -= 1;
        if trail[place].reason.is_none() {
            return Some(place);
        }
    }
    None
}

/// The place of the first decision from `back` on, or the length of the trail where there is none.
pub fn next_decision(trail: &[Step], back: usize) -> usize
    requires { back ≤ length trail.now }
    ensures within { result ≤ length trail.now }
    ensures none { NoDecision trail.now back result }
{
    for place in back..trail.len() {
        if trail[place].reason.is_none() {
            return place;
        }
    }
    trail.len()
}
