//! The search.

ghost use Rattle.std.specs.Prelude.{◌<◌, ◌≤◌, IfOk, length};
ghost use Rattle.pp_limits.specs.declared.TheConstants.{DEPTH, GATES, LEMMAS, ROUNDS};
ghost use Rattle.pp_checks.specs.Plan.{IsPlanOf};
ghost use Rattle.pp_estimate.specs.Estimates.{estimate};
ghost use Rattle.pp_query.specs.Found.{IsFound};

use crate::NoMemory;
use crate::found::Found;
use crate::query::{Query, query_of};
use crate::reading::read_all;
use crate::refuting::no_run_fails;
use crate::reply::Reply;
use crate::words::has_words_alone;
use pp_bounded::Bounded;
use pp_checks::Plan;
use pp_prog::{CheckId, Program};
use pp_symbolic::Mode;
use std::alloc::Global;

/// Looks for arguments of height at most `depth` whose run with the fuel `round` fails the check. There are none where
/// it is refuted by cases that the run fails it, which is tried first where the function meets no datatype, and else
/// where the solver has spent its lemmas. It may learn so many. The only error is want of memory.
pub fn search(
    alloc: Global,
    program: &Program,
    plan: &Plan,
    check: CheckId,
    round: u32,
    depth: u32,
    lemmas: u64,
) -> Result<Found, NoMemory>
    requires plan { IsPlanOf plan.now program.now }
    requires check { check.0 < length program.now.checks }
    requires round { round ≤ ROUNDS.most }
    requires depth { (1 ≤ depth) × (depth ≤ DEPTH.most) }
    requires lemmas { (1 ≤ lemmas) × (lemmas ≤ LEMMAS.most) }
    requires size { estimate program.now.types program.now.functions program.now.checks check.0 round depth
        ≤ GATES.most }
    ensures found { IfOk result (λ found. IsFound program.now check round depth lemmas found) }
{
    let words = has_words_alone(program, plan, check);
    if words && no_run_fails(alloc, program, plan, check, round)? {
        return Ok(Found::Nothing);
    }
    let query = query_of::<Bounded>(
        alloc,
        program,
        plan,
        check,
        Mode::Real,
        round,
        depth,
        lemmas,
    )?;
    let Query { question, reply } = query;
    match reply {
        Reply::Model(assignment) => {
            let arguments = question.frame.arguments.as_slice();
            let values = read_all(
                alloc,
                &question.domain,
                program.types(),
                &assignment,
                arguments,
            )?;
            Ok(Found::Args(values))
        }
        Reply::NoModel => Ok(Found::Nothing),
        Reply::Spent(evidence) => {
            if !words && no_run_fails(alloc, program, plan, check, round)? {
                return Ok(Found::Nothing);
            }
            Ok(Found::Spent(evidence))
        }
    }
}
