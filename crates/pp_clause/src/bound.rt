//! The greatest variable of clauses and literals.
ghost use Rattle.std.specs.Prelude.{ℕ, ◌≤◌, ◌^◌, All};
ghost use Rattle.pp_clause.specs.Bound.{IsUpTo};
ghost use Rattle.pp_clause.specs.Clause.{IsClause};

use crate::clauses::Clauses;
use crate::lit::Lit;

/// The greatest variable of the clauses, or 0 where they have none.
pub fn greatest_var(clauses: &Clauses) -> u32
    ensures up_to { All (IsUpTo result) clauses.now }
    ensures least { (vars : ℕ) → All (IsUpTo vars) clauses.now → result ≤ vars }
    ensures small { result ≤ 2 ^ 30 }
    ensures order { All IsClause clauses.now }
{
    let mut greatest = 0;
    for place in 0..clauses.len() {
        greatest = raised(greatest, clauses.get(place as u32 + 1).lits());
    }
    greatest
}

/// The bound, raised to the greatest variable of the literals where that is above it.
pub fn raised(bound: u32, lits: &[Lit]) -> u32
    ensures kept { bound ≤ result }
    ensures up_to { IsUpTo result lits.now }
    ensures least { (vars : ℕ) → bound ≤ vars → IsUpTo vars lits.now → result ≤ vars }
    ensures small { bound ≤ 2 ^ 30 → result ≤ 2 ^ 30 }
{
    let mut greatest = bound;
    for lit in lits {
        greatest = greatest.max(lit.var());
    }
    greatest
}
