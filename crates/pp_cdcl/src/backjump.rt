//! How a lemma is learnt, and how far the trail is taken back then.
ghost use Rattle.std.specs.Prelude.{◌≡◌, ◌+◌, ◌<◌, ◌≤◌, ◌^◌, length, take, IfOk, OnOk};
ghost use Rattle.pp_cdcl.specs.Invariant.{Invariant, left};
ghost use Rattle.pp_cdcl.specs.Step.{IsStep, IsOwnLemma, cut_base};

use crate::NoMemory;
use crate::answer::Answer;
use crate::restart::steps_to_keep;
use crate::search::{Problem, Search};
use pp_clause::Lemma;
use std::alloc::Global;

/// Adds a lemma to the log and the clauses, and takes the steps back that stand against it.
pub fn learn(
    alloc: Global,
    problem: Problem<'_>,
    search: &mut Search,
    lemma: Lemma,
    back: usize,
) -> Result<Option<Answer>, NoMemory>
    requires fit { length problem.clauses.now + problem.lemmas < 2 ^ 32 }
    requires invariant { Invariant problem.clauses.now problem.assumptions.now problem.lemmas search.old.watch
        search.old.log search.old.base }
    requires sized { search.old.analysis ≡ search.old.watch.vars + 1 }
    requires lemma { IsOwnLemma search.old.watch search.old.base lemma back }
    ensures { IfOk result (λ o. IsStep problem.entry.clauses.now problem.entry.assumptions.now problem.entry.lemmas
        (left problem.entry.lemmas search.old.watch search.old.log) o search.new) }
{
    let clause = lemma.clause.copy(alloc)?;
    search.log.push(lemma)?;
    let lemmas = search.log.as_slice().len();
    if lemmas as u64 == problem.lemmas {
        return Ok(Some(Answer::Spent(search.take_log(alloc))));
    }
    let to = steps_to_keep(search.watch.trail(), search.base, back, lemmas);
    backjump(search, to)?;
    search.watch.add(clause)?;
    Ok(None)
}

/// Keeps the first `to` steps of the trail.
fn backjump(search: &mut Search, to: usize) -> Result<(), NoMemory>
    requires { to ≤ length search.old.watch.steps }
    ensures watch { OnOk result
        (search.new.watch ≡ record search.old.watch { steps = take to search.old.watch.steps }) }
    ensures log { search.new.log ≡ search.old.log }
    ensures base { OnOk result (search.new.base ≡ cut_base search.old.base to) }
    ensures analysis { search.new.analysis ≡ search.old.analysis }
{
    search.order.release(&search.watch.trail()[to..])?;
    search.watch.undo(to);
    search.base = cut(search.base, to);
    Ok(())
}

/// The length at which all assumptions were true, where that is among the first `to` steps.
fn cut(base: Option<usize>, to: usize) -> Option<usize>
    ensures { result ≡ cut_base base to }
{
    match base {
        Some(end) => if end <= to { Some(end) } else { None },
        None => None,
    }
}
