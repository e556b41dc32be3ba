//! Looks at the literals of clauses.
ghost use Rattle.std.specs.Prelude.{◌≡◌, ◌≢◌, ◌<◌, ◌≤◌, ◌⊎◌, IsTrue, true, length, IfSome, IfNone};
ghost use Rattle.pp_clause.specs.Clause.{has};
ghost use Rattle.pp_clause.specs.Log.{all_negated};
ghost use Rattle.pp_clause.specs.New.{OthersNegated};
ghost use Rattle.pp_trail.specs.Trail.{lits};
ghost use Rattle.pp_trail.specs.Marks.{code};
ghost use Rattle.pp_watch.specs.Looking.{IsClauseOf, IsNotFalse, IsOther, IsChoice, IsBound, IsFree};
ghost use Rattle.pp_watch.specs.Watching.{IsShort};

use crate::head::Head;
use pp_clause::Lit;
use pp_trail::Trail;

/// A literal of a clause, and its place there.
#[derive(Clone, Copy)]
pub struct Found {
    /// The literal.
    pub lit: Lit,
    /// Its place, where the next look may begin. Any would do, and no clause says which it is.
    pub place: usize,
}

/// The literals of the clause with this number.
pub fn lits_of(trail: &Trail, number: u32) -> &[Lit]
    requires low { 1 ≤ number }
    requires high { number ≤ length trail.now.clauses }
    ensures { IsClauseOf trail.now.clauses trail.now.vars number result.now }
{
    trail.clauses().get(number).lits()
}

/// A literal that isn't false.
pub fn not_false(trail: &Trail, clause: &[Lit]) -> Option<Lit>
    ensures some { IfSome result (IsNotFalse (lits trail.now.steps) clause.now) }
    ensures none { IfNone result (all_negated (lits trail.now.steps) clause.now ≡ true) }
{
    for lit in clause {
        if !trail.is_false(*lit) {
            return Some(*lit);
        }
    }
    None
}

/// A literal besides this one that isn't false. The look begins at the place `from`, and goes round.
pub fn other_not_false(trail: &Trail, clause: &[Lit], lit: Lit, from: usize) -> Option<Found>
    ensures some { IfSome result (λ f. IsOther (lits trail.now.steps) clause.now lit f.lit) }
    ensures none { IfNone result (OthersNegated (lits trail.now.steps) clause.now lit) }
{
    let start = from.min(clause.len());
    match first_other(trail, &clause[start..], lit) {
        Some(found) => Some(Found {
            lit: found.lit,
            place: start + found.place,
        }),
        None => first_other(trail, &clause[..start], lit),
    }
}

/// The first literal of a part of a clause, besides this one, that isn't false.
fn first_other(trail: &Trail, part: &[Lit], lit: Lit) -> Option<Found>
    ensures some { IfSome result (λ f. IsOther (lits trail.now.steps) part.now lit f.lit) }
    ensures within { IfSome result (λ f. f.place < length part.now) }
    ensures none { IfNone result (OthersNegated (lits trail.now.steps) part.now lit) }
{
    let index = lit.index();
    for (place, other) in part.iter().enumerate() {
        if other.index() != index && !trail.is_false(*other) {
            return Some(Found { lit: *other, place });
        }
    }
    None
}

/// The literal besides this one that entered the trail last, or this one where there is no other. Any would do.
pub fn latest_other(trail: &Trail, clause: &[Lit], lit: Lit) -> Lit
    requires { has clause.now lit ≡ true }
    ensures { has clause.now result ≡ true }
{
    let mut latest = lit;
    let mut greatest = 0;
    for other in clause {
        if other.index() != lit.index() {
            if let Some(place) = trail.place(other.var()) {
                if greatest <= place {
                    latest = *other;
                    greatest = place;
                }
            }
        }
    }
    latest
}

/// The two literals that a clause is to watch. `None` where all its literals are false.
pub fn choose(trail: &Trail, clause: &[Lit]) -> Option<Head>
    ensures some { IfSome result (IsChoice (lits trail.now.steps) clause.now) }
    ensures none { IfNone result (all_negated (lits trail.now.steps) clause.now ≡ true) }
{
    let first = not_false(trail, clause)?;
    let second = match other_not_false(trail, clause, first, 0) {
        Some(other) => other.lit,
        None => latest_other(trail, clause, first),
    };
    Some(Head {
        first,
        second,
        look: 0,
    })
}

/// A literal of the clause besides these two, or the blocker, where the clause has no others than these three. Where it
/// has more, the first of the two.
pub fn third(clause: &[Lit], lit: Lit, blocker: Lit) -> Lit
    requires { has clause.now blocker ≡ true }
    ensures { code result ≢ code lit → IsShort clause.now lit blocker result }
{
    let mut third = blocker;
    for other in clause {
        if !is_among(*other, lit, blocker, third) {
            if third.index() != blocker.index() {
                return lit;
            }
            third = *other;
        }
    }
    third
}

/// Whether the literal is one of these three.
fn is_among(other: Lit, lit: Lit, blocker: Lit, third: Lit) -> bool
    ensures { IsTrue result → (other ≡ lit) ⊎ ((other ≡ blocker) ⊎ (other ≡ third)) }
{
    let index = other.index();
    index == lit.index() || index == blocker.index() || index == third.index()
}

/// The length before which levels stay, where a clause watches these literals from now on. `None` where they are two
/// that aren't false: then all levels stay.
pub fn bound(trail: &Trail, head: &Head) -> Option<usize>
    ensures some { IfSome result (IsBound trail.now.steps head.now) }
    ensures none { IfNone result (IsFree trail.now.steps head.now) }
{
    if head.first.index() == head.second.index() {
        return Some(0);
    }
    if !trail.is_false(head.second) {
        return None;
    }
    match trail.place(head.second.var()) {
        Some(place) => Some(place as usize + 1),
        None => Some(0),
    }
}
