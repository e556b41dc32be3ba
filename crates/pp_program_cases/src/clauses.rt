//! The clauses of a proof, for other solvers. `SOURCE CHECK ROUND` names a source, the number of a check and a round.
//! They are told in the DIMACS format, with a clause for each of the two literals that are asked at their end. A round
//! whose estimate is above 4,000,000 isn't built.

ghost use Rattle.pp_checks.specs.Plan.{IsPlanOf};

use crate::formula::{Formula, formula_of_round};
use anyhow::{Result, ensure};
use pp_bounded_samples::words::number;
use pp_case_line::CaseLine;
use pp_clause::{Lit, greatest_var};
use pp_estimate::estimate;
use pp_front::Accepted;
use pp_limits::GATES;
use pp_prog::CheckId;
use std::alloc::Global;

/// Tells the clauses of the proof of a check.
pub fn tell_clauses(
    alloc: Global,
    words: &str,
    accepted: &Accepted,
    out: &mut CaseLine,
) -> Result<()>
    requires { IsPlanOf accepted.now.plan accepted.now.program }
{
    let check = CheckId(number(words, 2, 0, u32::MAX)?);
    let round = number(words, 3, 0, 12)?;
    let (program, plan) = (&accepted.program, &accepted.plan);
    ensure!((check.0 as usize) < program.checks().len(), "no such check");
    let most = estimate(alloc, program, plan, check, round, 1)?;
    ensure!(most <= u64::from(GATES.most), "too many gates");
    tell_formula(&formula_of_round(alloc, accepted, check, round)?, out);
    Ok(())
}

/// Tells what is asked.
fn tell_formula(formula: &Formula, out: &mut CaseLine) {
    let clauses = &formula.clauses;
    let count = clauses.len() + formula.lits.len();
    out.put(format_args!("p cnf {} {count}\n", greatest_var(clauses)));
    for place in 0..clauses.len() {
        tell_clause(clauses.get(place as u32 + 1).lits(), out);
    }
    for lit in formula.lits {
        tell_clause(&[lit], out);
    }
}

/// Tells a clause: its variables, with a sign where they are negated, and 0.
fn tell_clause(lits: &[Lit], out: &mut CaseLine) {
    for lit in lits {
        let sign = if lit.is_positive() { "" } else { "-" };
        out.put(format_args!("{sign}{} ", lit.var()));
    }
    out.put("0\n");
}
