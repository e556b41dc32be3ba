//! A query: the question of a round with the solver's reply.

ghost use Rattle.std.specs.Prelude.{◌<◌, ◌≤◌, IfOk, length};
ghost use Rattle.pp_limits.specs.declared.TheConstants.{DEPTH, GATES, LEMMAS, ROUNDS};
ghost use Rattle.pp_checks.specs.Plan.{IsPlanOf};
ghost use Rattle.pp_estimate.specs.Estimates.{estimate};
ghost use Rattle.pp_query.specs.Question.{CanAsk, IsQuery, IsReplyTo};
ghost use Rattle.pp_symbolic.specs.Frame.{Suits};

use crate::NoMemory;
use crate::asking::ask;
use crate::question::{Question, question_of};
use crate::reply::Reply;
use pp_checks::Plan;
use pp_domain::Domain;
use pp_prog::{CheckId, Program};
use pp_symbolic::Mode;
use std::alloc::Global;

/// The question of a round, with the solver's reply. A model is one of the question's circuit.
#[derive(Drop)]
pub struct Query<D, T> {
    /// What is asked.
    pub question: Question<D, T>,
    /// What is replied.
    pub reply: Reply,
}

/// Asks whether the check fails in the round. The solver may learn so many lemmas. The only error is want of memory.
pub fn query_of<D: Domain + Drop>(
    alloc: Global,
    program: &Program,
    plan: &Plan,
    check: CheckId,
    mode: Mode,
    round: u32,
    depth: u32,
    lemmas: u64,
) -> Result<Query<D, D::Tree>, NoMemory>
    requires mode { Suits D.sense mode }
    requires plan { IsPlanOf plan.now program.now }
    requires check { check.0 < length program.now.checks }
    requires round { round ≤ ROUNDS.most }
    requires depth { (1 ≤ depth) × (depth ≤ DEPTH.most) }
    requires lemmas { (1 ≤ lemmas) × (lemmas ≤ LEMMAS.most) }
    requires size { estimate program.now.types program.now.functions program.now.checks check.0 round depth
        ≤ GATES.most }
    ensures query { IfOk result (λ q. IsQuery D.sense program.now check mode round depth lemmas q) }
{
    let question = question_of::<D>(alloc, program, plan, check, mode, round, depth)?;
    let reply = reply_to(alloc, &question, mode, lemmas)?;
    Ok(Query { question, reply })
}

/// What the solver replies to the question.
fn reply_to<D, T>(
    alloc: Global,
    question: &Question<D, T>,
    mode: Mode,
    lemmas: u64,
) -> Result<Reply, NoMemory>
    requires question { CanAsk question.now }
    requires lemmas { (1 ≤ lemmas) × (lemmas ≤ LEMMAS.most) }
    ensures { IfOk result (λ reply. IsReplyTo question.now lemmas reply) }
{
    let frame = &question.frame;
    ask(
        alloc,
        &question.circuit,
        frame.fails,
        frame.circuit_ok,
        mode,
        lemmas,
    )
}
