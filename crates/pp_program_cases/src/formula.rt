//! What is asked in the proof of a round.

ghost use Rattle.std.specs.Prelude.{◌<◌, ◌≤◌, length, IfOk};
ghost use Rattle.pp_checks.specs.Plan.{IsPlanOf};
ghost use Rattle.pp_estimate.specs.Estimates as spec;
ghost use Rattle.pp_gate.specs.Circuit.{IsOf};

use pp_clause::{Clauses, Lit};
use pp_front::Accepted;
use pp_named::Named;
use pp_prog::CheckId;
use pp_query::{Question, question_of};
use pp_symbolic::{Mode, NoMemory};
use std::alloc::Global;

/// The clauses of a circuit of so many gates, and the literals that are to be true besides, that of a failure first.
#[derive(Drop)]
pub struct Formula {
    pub gates: u32,
    pub clauses: Clauses,
    pub lits: [Lit; 2],
}

/// What is asked in the proof of a round, over guess runs.
pub fn formula_of_round(
    alloc: Global,
    accepted: &Accepted,
    check: CheckId,
    round: u32,
) -> Result<Formula, NoMemory>
    requires plan { IsPlanOf accepted.now.plan accepted.now.program }
    requires check { check.0 < length accepted.now.program.checks }
    requires round { round ≤ 12 }
    requires size { let p = accepted.now.program in
        spec.estimate p.types p.functions p.checks check.0 round 1 ≤ 4000000 }
    ensures { IfOk result (λ f. length f.clauses ≤ 32000000) }
{
    let (program, plan) = (&accepted.program, &accepted.plan);
    let question = question_of::<Named>(alloc, program, plan, check, Mode::Guess, round, 1)?;
    formula_of(&question)
}

/// What the question asks.
fn formula_of<D, T>(question: &Question<D, T>) -> Result<Formula, NoMemory>
    requires size { length question.now.circuit ≤ 4000000 }
    requires fails { IsOf question.now.circuit question.now.frame.fails }
    requires circuit_ok { IsOf question.now.circuit question.now.frame.circuit_ok }
    ensures { IfOk result (λ f. length f.clauses ≤ 32000000) }
{
    let lits = [question.frame.fails, question.frame.circuit_ok];
    Ok(Formula {
        gates: question.circuit.gates(),
        clauses: question.circuit.clauses_of(&lits)?,
        lits,
    })
}
