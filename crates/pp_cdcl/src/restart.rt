//! When a solver starts again from its assumptions.
ghost use Rattle.std.specs.Prelude.{◌≤◌, length};
ghost use Rattle.pp_cdcl.specs.Invariant.{NoDecision};

use crate::decisions::next_decision;
use pp_trail::Step;

/// After how many lemmas the trail is taken back to its assumptions.
pub const RESTART: usize = 40;

/// How many steps stay once a lemma is learnt, whose other literals were false at length `back`: those before the next
/// decision. Where the number of lemmas says that it is time for a restart, those before the first decision after the
/// assumptions, if these are fewer.
pub fn steps_to_keep(trail: &[Step], base: Option<usize>, back: usize, lemmas: usize) -> usize
    requires { back ≤ length trail.now }
    ensures within { result ≤ length trail.now }
    ensures none { NoDecision trail.now back result }
{
    let to = next_decision(trail, back);
    match base {
        Some(end) => {
            if lemmas % RESTART == 0 && end <= trail.len() {
                to.min(next_decision(trail, end))
            } else {
                to
            }
        }
        None => to,
    }
}
