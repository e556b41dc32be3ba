//! What a solver does where a clause is false: it learns a lemma, or it refutes.
ghost use Rattle.std.specs.Prelude.{◌≡◌, ◌+◌, ◌<◌, ◌^◌, length, IfSome, IfNone, IfOk};
ghost use Rattle.pp_trail.specs.Trail.{lits, IsFalse};
ghost use Rattle.pp_cdcl.specs.Answer.{RefutesWithin};
ghost use Rattle.pp_cdcl.specs.Invariant.{AreAssumed, Logged, Invariant, left};
ghost use Rattle.pp_cdcl.specs.Step.{IsStep, IsOwn};

use crate::NoMemory;
use crate::answer::Answer;
use crate::backjump::learn;
use crate::decisions::last_decision;
use crate::search::{Problem, Search};
use pp_clause::Log;
use std::alloc::Global;

/// Goes on where a clause is false.
pub fn after_conflict(
    alloc: Global,
    problem: Problem<'_>,
    search: &mut Search,
    number: u32,
) -> Result<Option<Answer>, NoMemory>
    requires fit { length problem.clauses.now + problem.lemmas < 2 ^ 32 }
    requires invariant { Invariant problem.clauses.now problem.assumptions.now problem.lemmas search.old.watch
        search.old.log search.old.base }
    requires sized { search.old.analysis ≡ search.old.watch.vars + 1 }
    requires conflict { IsFalse search.old.watch.clauses (lits search.old.watch.steps) number }
    ensures { IfOk result (λ o. IsStep problem.entry.clauses.now problem.entry.assumptions.now problem.entry.lemmas
        (left problem.entry.lemmas search.old.watch search.old.log) o search.new) }
{
    match own_decision(problem, search) {
        Some(start) => analyze(alloc, problem, search, number, start),
        None => {
            let log = refute(alloc, problem, search, number)?;
            Ok(Some(Answer::Unsat(log)))
        }
    }
}

/// The place of the last decision, where all assumptions were true before it.
fn own_decision(problem: Problem<'_>, search: &Search) -> Option<usize>
    requires { Invariant problem.clauses.now problem.assumptions.now problem.lemmas search.now.watch search.now.log
        search.now.base }
    ensures some { IfSome result (IsOwn search.now.watch.steps search.now.base) }
    ensures none { IfNone result (AreAssumed problem.entry.assumptions.now search.now.watch.steps
        (length search.now.watch.steps)) }
{
    let base = search.base?;
    let start = last_decision(search.watch.trail())?;
    if base <= start { Some(start) } else { None }
}

/// The log with the lemma that refutes, where a clause is false and all decisions are assumptions.
pub fn refute(
    alloc: Global,
    problem: Problem<'_>,
    search: &mut Search,
    number: u32,
) -> Result<Log, NoMemory>
    requires logged { Logged problem.clauses.now problem.assumptions.now problem.lemmas search.old.watch
        search.old.log }
    requires sized { search.old.analysis ≡ search.old.watch.vars + 1 }
    requires assumed { AreAssumed problem.assumptions.now search.old.watch.steps (length search.old.watch.steps) }
    requires conflict { IsFalse search.old.watch.clauses (lits search.old.watch.steps) number }
    ensures { IfOk result (RefutesWithin problem.entry.clauses.now problem.entry.assumptions.now problem.entry.lemmas) }
{
    let watch = &search.watch;
    let last = search.analysis.refute(
        alloc,
        watch.clauses(),
        watch.trail(),
        watch.places(),
        number,
    )?;
    let mut log = search.take_log(alloc);
    log.push(last)?;
    Ok(log)
}

/// Learns a lemma where a clause is false after a decision that is no assumption.
fn analyze(
    alloc: Global,
    problem: Problem<'_>,
    search: &mut Search,
    number: u32,
    start: usize,
) -> Result<Option<Answer>, NoMemory>
    requires fit { length problem.clauses.now + problem.lemmas < 2 ^ 32 }
    requires invariant { Invariant problem.clauses.now problem.assumptions.now problem.lemmas search.old.watch
        search.old.log search.old.base }
    requires sized { search.old.analysis ≡ search.old.watch.vars + 1 }
    requires conflict { IsFalse search.old.watch.clauses (lits search.old.watch.steps) number }
    requires own { IsOwn search.old.watch.steps search.old.base start }
    ensures { IfOk result (λ o. IsStep problem.entry.clauses.now problem.entry.assumptions.now problem.entry.lemmas
        (left problem.entry.lemmas search.old.watch search.old.log) o search.new) }
{
    let watch = &search.watch;
    let learnt = search.analysis.learn(
        alloc,
        watch.clauses(),
        watch.trail(),
        watch.places(),
        number,
        start as u32,
    )?;
    search.order.bump_all(search.analysis.met());
    learn(alloc, problem, search, learnt.lemma, learnt.back as usize)
}
