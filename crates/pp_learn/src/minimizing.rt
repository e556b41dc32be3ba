//! Takes literals away that follow from the others.
ghost use Rattle.std.specs.Prelude.{◌≡◌, ◌+◌, ◌<◌, ◌≤◌, length, OnOk};
ghost use Rattle.pp_trail.specs.Marks.{ArePlaces};
ghost use Rattle.pp_learn.specs.Seen.{AreMet, KeepsFrom};
ghost use Rattle.pp_learn.specs.Conflict.{GoesOnFrom};
ghost use Rattle.pp_learn.specs.Reached.{IsTrailFor, Reached};

use crate::NoMemory;
use crate::resolving::resolve;
use crate::seen::marked_place;
use pp_clause::Clauses;
use pp_trail::{Mark, Step};

/// Resolves with the reasons of these variables' steps, last one first, where they are marked and stand before `end`.
pub fn minimize_before(
    clauses: &Clauses,
    trail: &[Step],
    places: &[Option<Mark>],
    end: usize,
    order: &[u32],
    seen: &mut [bool],
    met: &mut Vec<u32>,
    chain: &mut Vec<u32>,
) -> Result<(), NoMemory>
    requires trail { IsTrailFor clauses.now trail.now seen.old }
    requires places { ArePlaces places.now trail.now }
    requires every { length places.now ≡ length seen.old }
    requires reached { Reached clauses.now trail.now seen.old chain.old.items }
    requires met { AreMet seen.old met.old.items }
    ensures reached { OnOk result (Reached clauses.now trail.now seen.new chain.new.items) }
    ensures keeps { OnOk result (KeepsFrom trail.now end seen.old seen.new) }
    ensures met { OnOk result (AreMet seen.new met.new.items) }
    ensures chain { OnOk result (GoesOnFrom chain.old.items chain.new.items) }
{
    for at in (0..order.len()).rev() {
        let var = order[at];
        if (var as usize) < seen.len() {
            if let Some(place) = marked_place(trail, places, seen, var) {
                if place < end {
                    minimize(clauses, trail, place, seen, met, chain)?;
                }
            }
        }
    }
    Ok(())
}

/// Resolves with the reason of the step at this place, where it is marked and has one.
fn minimize(
    clauses: &Clauses,
    trail: &[Step],
    place: usize,
    seen: &mut [bool],
    met: &mut Vec<u32>,
    chain: &mut Vec<u32>,
) -> Result<(), NoMemory>
    requires trail { IsTrailFor clauses.now trail.now seen.old }
    requires within { place < length trail.now }
    requires reached { Reached clauses.now trail.now seen.old chain.old.items }
    requires met { AreMet seen.old met.old.items }
    ensures reached { OnOk result (Reached clauses.now trail.now seen.new chain.new.items) }
    ensures keeps { OnOk result (KeepsFrom trail.now (place + 1) seen.old seen.new) }
    ensures met { OnOk result (AreMet seen.new met.new.items) }
    ensures chain { OnOk result (GoesOnFrom chain.old.items chain.new.items) }
{
    let step = trail[place];
    if !seen[step.lit.var() as usize] {
        return Ok(());
    }
    let Some(reason) = step.reason else {
        return Ok(());
    };
    resolve(clauses, trail, place, reason, seen, met, chain)
}
