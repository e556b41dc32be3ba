//! Problems, and how they are read.

use crate::numbers::{at, halves, numbers};
use pp_clause::{Clause, Clauses, Lit, Lits, NoMemory};
use std::alloc::Global;

/// The greatest number of a variable.
const LAST: u32 = 1 << 30;

/// The most clauses of a problem, and the most lemmas.
pub const MOST: u64 = 1 << 30;

/// The numbers of a case, by its fields.
#[derive(Drop)]
pub struct Fields {
    pub first: Vec<u32>,
    pub second: Vec<u32>,
    pub third: Vec<u32>,
}

impl Fields {
    /// The fields of a text, with a colon between two.
    pub fn read(alloc: Global, text: &str) -> Result<Fields, NoMemory> {
        let (first, rest) = halves(text, ':');
        let (second, third) = halves(rest, ':');
        Ok(Fields {
            first: numbers(alloc, first)?,
            second: numbers(alloc, second)?,
            third: numbers(alloc, third)?,
        })
    }
}

/// A problem: how many lemmas are allowed, assumptions and clauses.
#[derive(Drop)]
pub struct Case {
    pub lemmas: u64,
    pub assumptions: Lits,
    pub clauses: Clauses,
}

impl Case {
    /// The problem that the fields state.
    pub fn of(alloc: Global, fields: &Fields) -> Result<Case, NoMemory> {
        Ok(Case {
            lemmas: u64::from(at(&fields.first, 0)),
            assumptions: lits(alloc, &fields.second)?,
            clauses: clauses(alloc, &fields.third)?,
        })
    }
}

/// The clauses of a field. Each ends with a 0, for which a semicolon stands.
pub fn clauses(alloc: Global, numbers: &[u32]) -> Result<Clauses, NoMemory> {
    let mut clauses = Clauses::new(alloc);
    let mut clause = Vec::new(alloc);
    for number in numbers {
        if *number == 0 {
            add(alloc, &mut clauses, &clause)?;
            clause.clear();
        } else {
            clause.push(lit(*number))?;
        }
    }
    Ok(clauses)
}

/// The literals of a field.
pub fn lits(alloc: Global, numbers: &[u32]) -> Result<Lits, NoMemory> {
    let mut lits = Lits::new(alloc);
    for number in numbers {
        lits.push(lit(*number))?;
    }
    Ok(lits)
}

/// The literal of a number that has its sign: the first variable where it is 0.
pub fn lit(number: u32) -> Lit {
    let signed = number.cast_signed();
    Lit::new(signed.unsigned_abs().clamp(1, LAST), signed >= 0)
}

/// Adds the clause of these literals. One with a literal and its negation says nothing, and is left out.
pub fn add(alloc: Global, clauses: &mut Clauses, lits: &[Lit]) -> Result<(), NoMemory> {
    match Clause::of(alloc, lits)? {
        Some(clause) if (clauses.len() as u64) < MOST => clauses.add(clause),
        _ => Ok(()),
    }
}
