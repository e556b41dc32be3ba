//! Steps of resolution with the reasons of a trail.
ghost use Rattle.std.specs.Prelude.{ℕ, ◌≡◌, ◌<◌, ◌∷◌, ◌++◌, [], length, take, OnOk};
ghost use Rattle.pp_trail.specs.Trail.{lits, IsFalse};
ghost use Rattle.pp_clause.specs.Bound.{Fits};
ghost use Rattle.pp_learn.specs.Seen.{AreMet, AreBlank, IsClear, MarkedAt, Turns};
ghost use Rattle.pp_learn.specs.Reached.{IsTrailFor, Reached, ReasonAt, Forces};

use crate::NoMemory;
use crate::seen::mark_all;
use pp_clause::{Clauses, Lit};
use pp_trail::Step;

/// Begins with the clause with the number `conflict`, which the trail makes false, with no variable marked.
pub fn begin(
    clauses: &Clauses,
    trail: &[Step],
    conflict: u32,
    seen: &mut [bool],
    met: &mut Vec<u32>,
    chain: &mut Vec<u32>,
) -> Result<(), NoMemory>
    requires trail { IsTrailFor clauses.now trail.now seen.old }
    requires conflict { IsFalse clauses.now (lits trail.now) conflict }
    requires blank { AreBlank seen.old }
    ensures reached { OnOk result (Reached clauses.now trail.now seen.new chain.new.items) }
    ensures later { OnOk result ((start : ℕ) → IsClear trail.now seen.new start (length trail.now)
        → IsFalse clauses.now (lits (take start trail.now)) conflict) }
    ensures met { OnOk result (AreMet seen.new met.new.items) }
    ensures chain { OnOk result (chain.new.items ≡ conflict ∷ []) }
{
    met.clear();
    mark_all(clauses.get(conflict).lits(), seen, met)?;
    chain.clear();
    chain.push(conflict)?;
    Ok(())
}

/// The clause that is the reason of the step at this place.
fn reason_of<'a>(
    clauses: &'a Clauses,
    trail: &[Step],
    seen: &[bool],
    place: usize,
    reason: u32,
) -> &'a [Lit]
    requires trail { IsTrailFor clauses.now trail.now seen.now }
    requires reason { ReasonAt trail.now place reason }
    ensures forces { Forces clauses.now trail.now place reason result.now }
    ensures fits { Fits (length seen.now) result.now }
{
    clauses.get(reason).lits()
}

/// Resolves what is marked with the reason of the step at this place.
pub fn resolve(
    clauses: &Clauses,
    trail: &[Step],
    place: usize,
    reason: u32,
    seen: &mut [bool],
    met: &mut Vec<u32>,
    chain: &mut Vec<u32>,
) -> Result<(), NoMemory>
    requires trail { IsTrailFor clauses.now trail.now seen.old }
    requires within { place < length trail.now }
    requires reason { ReasonAt trail.now place reason }
    requires marked { MarkedAt trail.now seen.old place }
    requires reached { Reached clauses.now trail.now seen.old chain.old.items }
    requires met { AreMet seen.old met.old.items }
    ensures reached { OnOk result (Reached clauses.now trail.now seen.new chain.new.items) }
    ensures turns { OnOk result (Turns trail.now place seen.old seen.new) }
    ensures met { OnOk result (AreMet seen.new met.new.items) }
    ensures chain { OnOk result (chain.new.items ≡ chain.old.items ++ reason ∷ []) }
{
    let clause = reason_of(clauses, trail, seen, place, reason);
    chain.push(reason)?;
    mark_all(clause, seen, met)?;
    seen[trail[place].lit.var() as usize] = false;
    Ok(())
}
