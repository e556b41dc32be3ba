//! Clauses, chains and assignments.

use crate::case::{Fields, MOST, clauses, lit, lits};
use crate::numbers::at;
use crate::solver::{Request, push_lits};
use pp_case_line::CaseLine;
use pp_clause::{Assignment, Chain, Clause, Clauses, Lit, NoMemory, is_ascending};
use std::alloc::Global;

/// Adds the answer to a case on two fields of numbers.
pub fn push_answer(
    line: &mut CaseLine,
    alloc: Global,
    request: Request,
    fields: &Fields,
) -> Result<(), NoMemory> {
    match request {
        Request::Clause => push_clause_of(line, alloc, &fields.second),
        Request::Chain => push_chain(line, alloc, &fields.first),
        Request::Holds => push_holds(line, alloc, &fields.first, &fields.second),
        Request::Value => push_value(line, alloc, &fields.first, at(&fields.second, 0)),
        Request::Lit => {
            push_literal(line, lit(at(&fields.first, 0)));
            Ok(())
        }
        _ => push_ascending(line, alloc, &fields.first),
    }
}

/// Adds the clause of the literals.
fn push_clause_of(line: &mut CaseLine, alloc: Global, numbers: &[u32]) -> Result<(), NoMemory> {
    match Clause::of(alloc, lits(alloc, numbers)?.as_slice())? {
        Some(clause) => push_clause(line, "clause", &clause),
        None => line.put("none"),
    }
    Ok(())
}

/// Adds a name and the literals of a clause.
fn push_clause(line: &mut CaseLine, name: &str, clause: &Clause) {
    line.put(name);
    push_lits(line, clause.lits());
}

/// Adds whether the numbers are a chain, which then has just these.
fn push_chain(line: &mut CaseLine, alloc: Global, numbers: &[u32]) -> Result<(), NoMemory> {
    match Chain::of(alloc, numbers)? {
        Some(chain) => line.put(if chain.numbers() == numbers {
            "chain"
        } else {
            "wrong"
        }),
        None => line.put("none"),
    }
    Ok(())
}

/// Adds whether the assignment of these values makes the clauses true.
fn push_holds(
    line: &mut CaseLine,
    alloc: Global,
    values: &[u32],
    numbers: &[u32],
) -> Result<(), NoMemory> {
    let a = assignment(alloc, values)?;
    line.put(clauses(alloc, numbers)?.holds(&a));
    Ok(())
}

/// The assignment of these values, 1 and 0.
fn assignment(alloc: Global, values: &[u32]) -> Result<Assignment, NoMemory> {
    let mut given = Vec::new(alloc);
    for value in values {
        given.push(*value != 0)?;
    }
    Assignment::of(alloc, &given)
}

/// Adds the value of a variable, where the first have these values.
fn push_value(
    line: &mut CaseLine,
    alloc: Global,
    values: &[u32],
    var: u32,
) -> Result<(), NoMemory> {
    line.put(assignment(alloc, values)?.value(var.max(1)));
    Ok(())
}

/// Adds variable, sign and index of a literal and of its negation.
fn push_literal(line: &mut CaseLine, lit: Lit) {
    line.put("lit");
    push_parts(line, lit);
    push_parts(line, lit.negated());
}

fn push_parts(line: &mut CaseLine, lit: Lit) {
    line.put(" ");
    line.put(lit.var());
    line.put(" ");
    line.put(lit.is_positive());
    line.put(" ");
    line.put(lit.index());
}

/// Adds the clause of the literals, where they are in order.
fn push_ascending(line: &mut CaseLine, alloc: Global, numbers: &[u32]) -> Result<(), NoMemory> {
    let lits = lits(alloc, numbers)?;
    if is_ascending(lits.as_slice()) {
        let clause = Clause::of_ascending(alloc, lits.as_slice())?;
        push_clause(line, "ascending", &clause);
    } else {
        line.put("no");
    }
    Ok(())
}

/// Adds copies of the clauses, or that there are none.
pub fn push_copies(line: &mut CaseLine, alloc: Global, clauses: &Clauses) -> Result<(), NoMemory> {
    let mut copies = Clauses::with_capacity(alloc, clauses.len())?;
    for place in 0..clauses.len() {
        add_copy(alloc, &mut copies, clauses.get(place as u32 + 1))?;
    }
    push_clauses(line, &copies);
    Ok(())
}

fn add_copy(alloc: Global, copies: &mut Clauses, clause: &Clause) -> Result<(), NoMemory> {
    let copy = clause.copy(alloc)?;
    if (copies.len() as u64) < MOST {
        copies.add(copy)?;
    }
    Ok(())
}

fn push_clauses(line: &mut CaseLine, clauses: &Clauses) {
    line.put(if clauses.is_empty() { "none" } else { "copies" });
    for place in 0..clauses.len() {
        push_lits(line, clauses.get(place as u32 + 1).lits());
        line.put(" ;");
    }
}
