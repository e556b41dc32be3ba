//! One step of a solver: a propagation, and then a lemma or a decision.
ghost use Rattle.std.specs.Prelude.{◌≡◌, ◌+◌, ◌<◌, ◌^◌, length, IfOk};
ghost use Rattle.pp_clause.specs.Clause.{HasBoth};
ghost use Rattle.pp_cdcl.specs.Invariant.{Invariant, left};
ghost use Rattle.pp_cdcl.specs.Step.{IsStep};

use crate::NoMemory;
use crate::analyze::after_conflict;
use crate::answer::Answer;
use crate::decide::after_closing;
use crate::search::{Problem, Search};
use std::alloc::Global;

/// Propagates, and then decides a literal, learns a lemma or answers. `None` says that there is more to do.
pub fn step(
    alloc: Global,
    problem: Problem<'_>,
    search: &mut Search,
) -> Result<Option<Answer>, NoMemory>
    requires apart { ¬ HasBoth problem.assumptions.now }
    requires fit { length problem.clauses.now + problem.lemmas < 2 ^ 32 }
    requires invariant { Invariant problem.clauses.now problem.assumptions.now problem.lemmas search.old.watch
        search.old.log search.old.base }
    requires sized { search.old.analysis ≡ search.old.watch.vars + 1 }
    ensures { IfOk result (λ o. IsStep problem.entry.clauses.now problem.entry.assumptions.now problem.entry.lemmas
        (left problem.entry.lemmas search.old.watch search.old.log) o search.new) }
{
    match search.watch.propagate()? {
        Some(number) => after_conflict(alloc, problem, search, number),
        None => after_closing(alloc, problem, search),
    }
}
