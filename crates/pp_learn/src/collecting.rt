//! The lemma that the variables seen and the chain stand for.
ghost use Rattle.std.specs.Prelude.{◌≡◌, ◌<◌, ◌≤◌, length, All, IfOk, OnOk};
ghost use Rattle.pp_clause.specs.Clause.{HasBoth};
ghost use Rattle.pp_trail.specs.Trail.{lits};
ghost use Rattle.pp_trail.specs.Marks.{ArePlaces};
ghost use Rattle.pp_learn.specs.Seen.{Shows, AreMet, FollowsLast};
ghost use Rattle.pp_learn.specs.Reached.{IsTrailFor};

use crate::NoMemory;
use crate::seen::marked_place;
use pp_clause::{Chain, Clause, Clauses, Lemma, Lit};
use pp_trail::{Mark, Step};
use std::alloc::Global;

/// Collects the negations of the trail's literals whose variables are marked. Each of these was met.
fn collect(
    clauses: &Clauses,
    trail: &[Step],
    places: &[Option<Mark>],
    seen: &[bool],
    met: &[u32],
    found: &mut Vec<Lit>,
) -> Result<(), NoMemory>
    requires trail { IsTrailFor clauses.now trail.now seen.now }
    requires places { ArePlaces places.now trail.now }
    requires every { length places.now ≡ length seen.now }
    requires met { AreMet seen.now met.now }
    ensures { OnOk result (Shows seen.now (lits trail.now) found.new.items) }
{
    found.clear();
    for var in met {
        if let Some(place) = marked_place(trail, places, seen, *var) {
            found.push(trail[place].lit.negated())?;
        }
    }
    Ok(())
}

/// The clause that the variables seen show, with this chain.
pub fn lemma_of(
    alloc: Global,
    clauses: &Clauses,
    trail: &[Step],
    places: &[Option<Mark>],
    seen: &[bool],
    met: &[u32],
    chain: &[u32],
    literals: &mut Vec<Lit>,
) -> Result<Lemma, NoMemory>
    requires trail { IsTrailFor clauses.now trail.now seen.now }
    requires places { ArePlaces places.now trail.now }
    requires every { length places.now ≡ length seen.now }
    requires met { AreMet seen.now met.now }
    requires apart { ¬ HasBoth (lits trail.now) }
    requires some { 0 < length chain.now }
    requires numbers { All (λ n. 1 ≤ n) chain.now }
    ensures chain { IfOk result (λ m. m.chain ≡ chain.now) }
    ensures shown { IfOk result (λ m. Shows seen.now (lits trail.now) m.clause) }
{
    collect(clauses, trail, places, seen, met, literals)?;
    let clause = Clause::of_mut(alloc, literals.as_mut_slice())?.unwrap();
    let chain = Chain::of(alloc, chain)?.unwrap();
    Ok(Lemma { clause, chain })
}

/// One more than the place of the last marked step before `end`, and 0 where there is none.
pub fn back_to(
    clauses: &Clauses,
    trail: &[Step],
    places: &[Option<Mark>],
    seen: &[bool],
    met: &[u32],
    end: usize,
) -> usize
    requires trail { IsTrailFor clauses.now trail.now seen.now }
    requires places { ArePlaces places.now trail.now }
    requires every { length places.now ≡ length seen.now }
    requires met { AreMet seen.now met.now }
    requires end { end ≤ length trail.now }
    ensures { FollowsLast trail.now seen.now end result }
{
    let mut back = 0;
    for var in met {
        if let Some(place) = marked_place(trail, places, seen, *var) {
            if place < end && back <= place {
                back = place + 1;
            }
        }
    }
    back
}
