//! The proof of a check.

ghost use Rattle.std.specs.Prelude.{◌<◌, ◌≤◌, IfOk, length};
ghost use Rattle.pp_limits.specs.declared.TheConstants.{GATES, LEMMAS, ROUNDS};
ghost use Rattle.pp_checks.specs.Plan.{IsPlanOf};
ghost use Rattle.pp_estimate.specs.Estimates.{estimate};
ghost use Rattle.pp_query.specs.Proofs.{IsProof};

use crate::NoMemory;
use crate::proof::Proof;
use crate::query::{Query, query_of};
use crate::refuting::no_guess_fails;
use crate::reply::Reply;
use pp_checks::Plan;
use pp_named::Named;
use pp_prog::{CheckId, Program};
use pp_symbolic::Mode;
use std::alloc::Global;

/// Proves that no guess run of the round fails the check. A plain descent is proved without a query, and so is a check
/// of which it is refuted by cases that its steps fail it; of another one the circuit of the guess runs, over named
/// trees, is asked for a model, and the check is proved where there is none. The solver may learn so many lemmas. The
/// only error is want of memory.
pub fn prove(
    alloc: Global,
    program: &Program,
    plan: &Plan,
    check: CheckId,
    round: u32,
    lemmas: u64,
) -> Result<Proof, NoMemory>
    requires plan { IsPlanOf plan.now program.now }
    requires check { check.0 < length program.now.checks }
    requires round { round ≤ ROUNDS.most }
    requires lemmas { (1 ≤ lemmas) × (lemmas ≤ LEMMAS.most) }
    requires size { estimate program.now.types program.now.functions program.now.checks check.0 round 1 ≤ GATES.most }
    ensures proof { IfOk result (λ proof. IsProof program.now check round lemmas proof) }
{
    if plan.plain(check) {
        return Ok(Proof::Proved);
    }
    if no_guess_fails(alloc, program, plan, check, round)? {
        return Ok(Proof::Proved);
    }
    let query = query_of::<Named>(alloc, program, plan, check, Mode::Guess, round, 1, lemmas)?;
    let Query { question: _, reply } = query;
    match reply {
        Reply::Model(_) => Ok(Proof::NotProved),
        Reply::NoModel => Ok(Proof::Proved),
        Reply::Spent(evidence) => Ok(Proof::Spent(evidence)),
    }
}
