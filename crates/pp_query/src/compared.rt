//! Which variables tell that two words are equal: those that the solver decides first where it looks for a guess run.
//!
//! The equality of two words is a chain of conjunctions, digit by digit from the lowest one on. Mostly a check fails
//! where two words differ. Where the solver decides first whether they are equal up to a digit, it learns digit by
//! digit that they are: of a sum that is put in another order it takes about half the lemmas. Which variables these
//! are is read off the clauses, as circuits give them for their gates: a gate's variable is the greatest of its
//! clauses.

ghost use Rattle.std.specs.Prelude.{◌≤◌, ℕ, All, IfOk};
ghost use Rattle.pp_clause.specs.Bound.{IsUpTo};

use crate::NoMemory;
use pp_clause::{Clauses, Lit, greatest_var};
use std::alloc::Global;

/// How far the clauses are read that say when a variable is true.
#[derive(Clone, Copy)]
enum Definition {
    /// No clause.
    Unread,
    /// It is false where this is.
    Part(Lit),
    /// It is true where both are.
    Both(Lit, Lit),
    /// Its clauses are over these two variables: it is true where they differ, or where they are the same.
    Pair(u32, u32),
    /// Any other.
    Other,
}

impl Definition {
    /// With a clause by which the variable is false where the literal is.
    fn with_part(self, part: Lit) -> Definition {
        match self {
            Definition::Unread => Definition::Part(part),
            Definition::Part(other) => Definition::Both(other, part),
            _ => Definition::Other,
        }
    }

    /// With a clause over two other variables.
    fn with_pair(self, low: u32, high: u32) -> Definition {
        match self {
            Definition::Unread => Definition::Pair(low, high),
            Definition::Both(a, b) => Definition::Both(a, b),
            Definition::Pair(a, b) if a == low && b == high => self,
            _ => Definition::Other,
        }
    }
}

/// The variables that tell, up to a digit, that two words are equal, on whose equality the literal stands by
/// conjunctions alone. The only error is want of memory. That they are variables of the clauses is all that is
/// promised, since the solver's answers are right in any order.
pub fn comparisons(alloc: Global, clauses: &Clauses, lit: Lit) -> Result<Vec<u32>, NoMemory>
    ensures { IfOk result (λ r. (vars : ℕ) → All (IsUpTo vars) clauses.now → All (λ v. v ≤ vars) r.items) }
{
    let count = greatest_var(clauses) as usize + 1;
    let mut definitions = vec![in alloc; Definition::Unread; count]?;
    read_all(&mut definitions, clauses);
    let mut found = Vec::new(alloc);
    let mut needed = vec![in alloc; false; count]?;
    mark(&mut needed, lit);
    for done in 0..count {
        let var = count - 1 - done;
        if needed[var] && is_comparison(&definitions, definitions[var], &mut needed) {
            found.push(var as u32)?;
        }
    }
    Ok(found)
}

/// Marks the parts of a conjunction. Whether one of them is that two literals are equal.
fn is_comparison(definitions: &[Definition], definition: Definition, needed: &mut [bool]) -> bool {
    match definition {
        Definition::Both(a, b) => {
            mark(needed, a);
            mark(needed, b);
            is_equality(definitions, a) || is_equality(definitions, b)
        }
        _ => false,
    }
}

/// Whether the literal is that two literals are equal.
fn is_equality(definitions: &[Definition], lit: Lit) -> bool {
    match definitions.get(lit.var() as usize) {
        Some(Definition::Pair(_, _)) => !lit.is_positive(),
        _ => false,
    }
}

/// Marks the variable of the literal, if there is a mark for it.
fn mark(needed: &mut [bool], lit: Lit) {
    if let Some(mark) = needed.get_mut(lit.var() as usize) {
        *mark = true;
    }
}

/// Reads what the clauses say of each variable.
fn read_all(definitions: &mut [Definition], clauses: &Clauses) {
    for place in 0..clauses.len() {
        read(definitions, clauses.get(place as u32 + 1).lits());
    }
}

/// Reads a clause, the literals of which ascend.
fn read(definitions: &mut [Definition], clause: &[Lit]) {
    match clause {
        [part, out] if !out.is_positive() => {
            if let Some(definition) = definitions.get_mut(out.var() as usize) {
                *definition = definition.with_part(*part);
            }
        }
        [low, high, out] => {
            if let Some(definition) = definitions.get_mut(out.var() as usize) {
                *definition = definition.with_pair(low.var(), high.var());
            }
        }
        _ => {}
    }
}
