//! The variables seen: marks by variable.
ghost use Rattle.std.specs.Prelude.{◌≡◌, ◌+◌, ◌<◌, ◌≤◌, ◌∷◌, [], length, OnOk, IfSome, IfNone};
ghost use Rattle.pp_trail.specs.Marks.{ArePlaces};
ghost use Rattle.pp_clause.specs.Bound.{Fits};
ghost use Rattle.pp_learn.specs.Seen.{MarksAll, AreMet, AreBlank, IsClear, IsLastMarked, FitAll};
ghost use Rattle.pp_learn.specs.Seen.{IsMarkedPlace, IsUnmarked};

use crate::NoMemory;
use pp_clause::Lit;
use pp_trail::{Mark, Step};

/// Marks the variables of the clause. Those that weren't marked are met.
pub fn mark_all(clause: &[Lit], seen: &mut [bool], met: &mut Vec<u32>) -> Result<(), NoMemory>
    requires fits { Fits (length seen.old) clause.now }
    requires met { AreMet seen.old met.old.items }
    ensures all { OnOk result (MarksAll seen.old seen.new clause.now) }
    ensures met { OnOk result (AreMet seen.new met.new.items) }
{
    for lit in clause {
        mark(*lit, seen, met)?;
    }
    Ok(())
}

/// Marks the variable of the literal.
fn mark(lit: Lit, seen: &mut [bool], met: &mut Vec<u32>) -> Result<(), NoMemory>
    requires fits { lit.var < length seen.old }
    requires met { AreMet seen.old met.old.items }
    ensures all { OnOk result (MarksAll seen.old seen.new (lit ∷ [])) }
    ensures met { OnOk result (AreMet seen.new met.new.items) }
{
    let var = lit.var();
    if !seen[var as usize] {
        met.push(var)?;
        seen[var as usize] = true;
    }
    Ok(())
}

/// Takes the marks away that are on variables that were met.
pub fn blank(seen: &mut [bool], met: &[u32])
    requires { AreMet seen.old met.now }
    ensures { AreBlank seen.new }
{
    for var in met {
        seen[*var as usize] = false;
    }
}

/// Takes all marks away.
pub fn blank_all(seen: &mut [bool])
    ensures { AreBlank seen.new }
{
    for var in 0..seen.len() {
        seen[var] = false;
    }
}

/// The last marked step of those from place `from` on, and before `end`.
pub fn last_marked(trail: &[Step], seen: &[bool], from: usize, end: usize) -> Option<usize>
    requires fits { FitAll (length seen.now) trail.now }
    requires end { end ≤ length trail.now }
    ensures some { IfSome result (IsLastMarked trail.now seen.now from end) }
    ensures none { IfNone result (IsClear trail.now seen.now from end) }
{
    let mut place = end;
    while place > from {
        place -= 1;
        if seen[trail[place].lit.var() as usize] {
            return Some(place);
        }
    }
    None
}

/// The place of the variable's step, where it is marked.
pub fn marked_place(
    trail: &[Step],
    places: &[Option<Mark>],
    seen: &[bool],
    var: u32,
) -> Option<usize>
    requires places { ArePlaces places.now trail.now }
    requires every { length places.now ≡ length seen.now }
    requires var { var < length seen.now }
    ensures some { IfSome result (IsMarkedPlace trail.now seen.now var) }
    ensures none { IfNone result (IsUnmarked trail.now seen.now var) }
{
    if !seen[var as usize] {
        return None;
    }
    match places[var as usize] {
        Some(mark) => Some(mark.place as usize),
        None => None,
    }
}
