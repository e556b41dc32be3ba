//! All lists of four clauses over three variables.

use crate::case::{Case, add};
use crate::solver::kind;
use pp_case_line::CaseLine;
use pp_clause::{Assignment, Clauses, Lit, Lits, NoMemory};
use std::alloc::Global;

/// How many clauses three variables have: each is missing, true or false.
const CLAUSES: u32 = 27;

/// Adds how many of the lists, each taken once, the solver decides as the eight assignments tell.
pub fn push_answer(line: &mut CaseLine, alloc: Global, lemmas: u64) -> Result<(), NoMemory> {
    let mut right = 0u32;
    for code in 0..CLAUSES * CLAUSES * CLAUSES * CLAUSES {
        let codes = digits(code);
        if codes.is_sorted() && is_decided(alloc, &listed(alloc, lemmas, &codes)?)? {
            right = right.saturating_add(1);
        }
    }
    line.put(right);
    line.put(" right");
    Ok(())
}

/// The four digits of a number to the base of the number of clauses.
fn digits(number: u32) -> [u32; 4] {
    let (high, low) = (number / (CLAUSES * CLAUSES), number % (CLAUSES * CLAUSES));
    [high / CLAUSES, high % CLAUSES, low / CLAUSES, low % CLAUSES]
}

/// Whether the solver's answer is that of the eight assignments.
fn is_decided(alloc: Global, list: &Case) -> Result<bool, NoMemory> {
    let satisfiable = is_satisfiable(alloc, &list.clauses)?;
    Ok(kind(alloc, list)? == if satisfiable { "sat" } else { "unsat" })
}

/// The clauses of these codes.
fn listed(alloc: Global, lemmas: u64, codes: &[u32]) -> Result<Case, NoMemory> {
    let mut clauses = Clauses::new(alloc);
    for code in codes {
        add(alloc, &mut clauses, &clause(alloc, *code)?)?;
    }
    Ok(Case {
        lemmas,
        assumptions: Lits::new(alloc),
        clauses,
    })
}

/// The clause of a code, whose digits to the base three tell of each variable whether it is missing, true or false.
fn clause(alloc: Global, code: u32) -> Result<Vec<Lit>, NoMemory> {
    let mut lits = Vec::new(alloc);
    let mut rest = code;
    for var in 1..4 {
        if rest % 3 > 0 {
            lits.push(Lit::new(var, rest % 3 == 1))?;
        }
        rest /= 3;
    }
    Ok(lits)
}

fn is_satisfiable(alloc: Global, clauses: &Clauses) -> Result<bool, NoMemory> {
    for code in 0..8u32 {
        let values = [code % 2 == 1, code / 2 % 2 == 1, code / 4 == 1];
        if clauses.holds(&Assignment::of(alloc, &values)?) {
            return Ok(true);
        }
    }
    Ok(false)
}
