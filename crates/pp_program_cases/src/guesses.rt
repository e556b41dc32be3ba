//! What the proofs of a source's checks take. `SOURCE ROUNDS LEMMAS` names a source, the last round, and how many
//! lemmas each proof may learn. For each check and each round, from 0 on to the one that proves it, it tells the steps
//! of the guess runs, the gates of their circuit beside what the estimate has for this round alone, the clauses of what
//! is asked, the lemmas that were learnt, and how the proof ended. A round whose estimate is above 4,000,000 isn't
//! built.

ghost use Rattle.std.specs.Prelude.{◌<◌, ◌≤◌, length};
ghost use Rattle.pp_checks.specs.Plan.{IsPlanOf};
ghost use Rattle.pp_estimate.specs.Estimates as spec;

use crate::formula::{Formula, formula_of_round};
use crate::steps::steps_of;
use anyhow::Result;
use pp_bounded_samples::words::number;
use pp_case_line::CaseLine;
use pp_cdcl::{Answer, solve};
use pp_clause::Clause;
use pp_estimate::estimate;
use pp_front::Accepted;
use pp_limits::GATES;
use pp_prog::CheckId;
use pp_query::comparisons;
use pp_symbolic::{Mode, NoMemory};
use std::alloc::Global;

/// The most lemmas of a proof.
const MOST_LEMMAS: u32 = 1_000_000;

/// How a proof ended.
#[derive(Clone, Copy)]
enum End {
    Proved(usize),
    NotProved,
    Spent(usize),
}

/// Tells what the proofs of the checks take.
pub fn tell_proofs(
    alloc: Global,
    words: &str,
    accepted: &Accepted,
    out: &mut CaseLine,
) -> Result<()>
    requires { IsPlanOf accepted.now.plan accepted.now.program }
{
    let rounds = number(words, 2, 0, 12)?;
    let lemmas = number(words, 3, 1, MOST_LEMMAS)?;
    for check in 0..accepted.program.checks().len() {
        tell_check(alloc, accepted, CheckId(check as u32), rounds, lemmas, out)?;
    }
    Ok(())
}

/// Tells what the proofs of a check take, round after round until one proves it.
fn tell_check(
    alloc: Global,
    accepted: &Accepted,
    check: CheckId,
    rounds: u32,
    lemmas: u32,
    out: &mut CaseLine,
) -> Result<(), NoMemory>
    requires plan { IsPlanOf accepted.now.plan accepted.now.program }
    requires check { check.0 < length accepted.now.program.checks }
    requires rounds { rounds ≤ 12 }
    requires lemmas { (1 ≤ lemmas) × (lemmas ≤ 1000000) }
{
    let mut before = 0;
    for round in 0..=rounds {
        let most = estimate(alloc, &accepted.program, &accepted.plan, check, round, 1)?;
        if most > u64::from(GATES.most) {
            return Ok(());
        }
        let single = most.saturating_sub(before);
        if tell_round(alloc, accepted, check, round, lemmas, single, out)? {
            return Ok(());
        }
        before = most;
    }
    Ok(())
}

/// Tells what the proof of a round takes, beside what the estimate has for this round: whether it proves the check.
fn tell_round(
    alloc: Global,
    accepted: &Accepted,
    check: CheckId,
    round: u32,
    lemmas: u32,
    single: u64,
    out: &mut CaseLine,
) -> Result<bool, NoMemory>
    requires plan { IsPlanOf accepted.now.plan accepted.now.program }
    requires check { check.0 < length accepted.now.program.checks }
    requires round { round ≤ 12 }
    requires lemmas { (1 ≤ lemmas) × (lemmas ≤ 1000000) }
    requires size { let p = accepted.now.program in
        spec.estimate p.types p.functions p.checks check.0 round 1 ≤ 4000000 }
{
    let steps = steps_of(alloc, &accepted.program, check, Mode::Guess, round)?;
    let formula = formula_of_round(alloc, accepted, check, round)?;
    let end = prove(alloc, &formula, lemmas)?;
    out.put(format_args!("check {}, round {round}: {steps} steps, ", check.0));
    tell_formula(&formula, single, out);
    tell_end(end, out);
    Ok(matches!(end, End::Proved(_)))
}

/// Tells how large what is asked is, beside what the estimate has for this round.
fn tell_formula(formula: &Formula, single: u64, out: &mut CaseLine) {
    let (gates, clauses) = (formula.gates, formula.clauses.len());
    out.put(format_args!("{gates} gates of {single}, {clauses} clauses, "));
}

/// Tells how a proof ended.
fn tell_end(end: End, out: &mut CaseLine) {
    match end {
        End::Proved(lemmas) => out.put(format_args!("proved by {lemmas} lemmas\n")),
        End::NotProved => out.put("not proved\n"),
        End::Spent(lemmas) => out.put(format_args!("{lemmas} lemmas spent\n")),
    }
}

/// Looks for a proof that no assignment makes true what is asked, by so many lemmas.
fn prove(alloc: Global, formula: &Formula, lemmas: u32) -> Result<End, NoMemory>
    requires clauses { length formula.now.clauses ≤ 32000000 }
    requires lemmas { (1 ≤ lemmas) × (lemmas ≤ 1000000) }
{
    let (clauses, lits) = (&formula.clauses, &formula.lits);
    let first = comparisons(alloc, clauses, lits[0])?;
    match Clause::of(alloc, lits)? {
        None => Ok(End::Proved(0)),
        Some(_) => {
            let answer = solve(alloc, clauses, lits, &first, u64::from(lemmas))?;
            Ok(end_of(&answer))
        }
    }
}

/// How a proof ended, by the answer of the solver.
fn end_of(answer: &Answer) -> End {
    match answer {
        Answer::Sat(_) => End::NotProved,
        Answer::Unsat(log) => End::Proved(log.as_slice().len()),
        Answer::Spent(log) => End::Spent(log.as_slice().len()),
    }
}
