//! Walks down the trail, from its end.
ghost use Rattle.std.specs.Prelude.{◌≡◌, ◌+◌, ◌<◌, ◌≤◌, length, take, OnOk, IfOk, IfSome, IfNone};
ghost use Rattle.pp_trail.specs.Trail.{IsFalse, lits};
ghost use Rattle.pp_learn.specs.Seen.{AreMet, MarkedAt, IsClear, IsMarkedIn, IsPoint, FitAll};
ghost use Rattle.pp_learn.specs.Conflict.{AreBeforePoint};
ghost use Rattle.pp_learn.specs.Reached.{IsTrailFor, Reached, AreForced, AreDecisions};

use crate::NoMemory;
use crate::resolving::resolve;
use crate::seen::last_marked;
use pp_clause::Clauses;
use pp_trail::Step;

/// Resolves until one step alone of those from `start` on is marked, and answers its place: the first unique
/// implication point.
pub fn first_uip(
    clauses: &Clauses,
    trail: &[Step],
    start: usize,
    seen: &mut [bool],
    met: &mut Vec<u32>,
    chain: &mut Vec<u32>,
) -> Result<usize, NoMemory>
    requires trail { IsTrailFor clauses.now trail.now seen.old }
    requires forced { AreForced trail.now start }
    requires some { ¬ IsClear trail.now seen.old start (length trail.now) }
    requires reached { Reached clauses.now trail.now seen.old chain.old.items }
    requires begun { length chain.old.items ≡ 1 }
    requires met { AreMet seen.old met.old.items }
    ensures reached { OnOk result (Reached clauses.now trail.now seen.new chain.new.items) }
    ensures point { IfOk result (IsPoint trail.now seen.new start) }
    ensures first { OnOk result (AreBeforePoint clauses.now (lits (take start trail.now)) chain.new.items) }
    ensures met { OnOk result (AreMet seen.new met.new.items) }
{
    let mut place = last_marked(trail, seen, start, trail.len()).unwrap();
    let mut other = place;
    while let Some(below) = marked_before(trail, seen, start, other, place) {
        let reason = trail[place].reason.unwrap();
        resolve(clauses, trail, place, reason, seen, met, chain)?;
        place = last_marked(trail, seen, below, place).unwrap();
        other = below;
    }
    Ok(place)
}

/// A marked step before this place, among those from `start` on. The step at `other` is marked.
fn marked_before(
    trail: &[Step],
    seen: &[bool],
    start: usize,
    other: usize,
    place: usize,
) -> Option<usize>
    requires fits { FitAll (length seen.now) trail.now }
    requires end { place ≤ length trail.now }
    requires low { start ≤ other }
    requires marked { MarkedAt trail.now seen.now other }
    ensures some { IfSome result (IsMarkedIn trail.now seen.now start place) }
    ensures none { IfNone result (IsClear trail.now seen.now start place) }
{
    if other < place {
        return Some(other);
    }
    last_marked(trail, seen, start, place)
}

/// Resolves until decisions alone are marked.
pub fn to_decisions(
    clauses: &Clauses,
    trail: &[Step],
    seen: &mut [bool],
    met: &mut Vec<u32>,
    chain: &mut Vec<u32>,
) -> Result<(), NoMemory>
    requires trail { IsTrailFor clauses.now trail.now seen.old }
    requires reached { Reached clauses.now trail.now seen.old chain.old.items }
    requires met { AreMet seen.old met.old.items }
    ensures reached { OnOk result (Reached clauses.now trail.now seen.new chain.new.items) }
    ensures decided { OnOk result (AreDecisions trail.now seen.new 0) }
    ensures met { OnOk result (AreMet seen.new met.new.items) }
{
    for place in (0..trail.len()).rev() {
        resolve_marked(clauses, trail, place, seen, met, chain)?;
    }
    Ok(())
}

/// Resolves with the reason of the step at this place, where it is marked and has one.
fn resolve_marked(
    clauses: &Clauses,
    trail: &[Step],
    place: usize,
    seen: &mut [bool],
    met: &mut Vec<u32>,
    chain: &mut Vec<u32>,
) -> Result<(), NoMemory>
    requires trail { IsTrailFor clauses.now trail.now seen.old }
    requires within { place < length trail.now }
    requires reached { Reached clauses.now trail.now seen.old chain.old.items }
    requires met { AreMet seen.old met.old.items }
    requires decided { AreDecisions trail.now seen.old (place + 1) }
    ensures reached { OnOk result (Reached clauses.now trail.now seen.new chain.new.items) }
    ensures decided { OnOk result (AreDecisions trail.now seen.new place) }
    ensures met { OnOk result (AreMet seen.new met.new.items) }
{
    let step = trail[place];
    if !seen[step.lit.var() as usize] {
        return Ok(());
    }
    let Some(reason) = step.reason else {
        return Ok(());
    };
    resolve(clauses, trail, place, reason, seen, met, chain)
}
