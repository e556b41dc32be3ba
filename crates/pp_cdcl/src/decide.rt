//! What a solver does where no clause is false, and none leaves no other choice: it decides a literal, or it answers.
ghost use Rattle.std.specs.Prelude.{◌≡◌, ◌≢◌, ◌+◌, ◌<◌, ◌≤◌, ◌++◌, ◌∷◌, [], None, IsSome, length, All, IfOk};
ghost use Rattle.pp_clause.specs.Literal.{opposite};
ghost use Rattle.pp_clause.specs.Clause.{HasBoth};
ghost use Rattle.pp_clause.specs.New.{IsClosed};
ghost use Rattle.pp_trail.specs.Trail.{lits, IsPlaceOf};
ghost use Rattle.pp_cdcl.specs.Answer.{RefutesWithin};
ghost use Rattle.pp_cdcl.specs.Invariant.{AreAssumed, Logged, Invariant, left};
ghost use Rattle.pp_cdcl.specs.Step.{IsStep, IsMissing, IsReasonOf};

use crate::NoMemory;
use crate::analyze::refute;
use crate::answer::Answer;
use crate::choosing::{assignment, free_literal, missing};
use crate::search::{Problem, Search};
use pp_clause::{Lit, Log};
use pp_trail::Step;
use std::alloc::Global;

/// Goes on where no clause is false, and none leaves no other choice.
pub fn after_closing(
    alloc: Global,
    problem: Problem<'_>,
    search: &mut Search,
) -> Result<Option<Answer>, NoMemory>
    requires apart { ¬ HasBoth problem.assumptions.now }
    requires invariant { Invariant problem.clauses.now problem.assumptions.now problem.lemmas search.old.watch
        search.old.log search.old.base }
    requires sized { search.old.analysis ≡ search.old.watch.vars + 1 }
    requires closed { IsClosed search.old.watch.clauses (lits search.old.watch.steps) }
    ensures { IfOk result (λ o. IsStep problem.entry.clauses.now problem.entry.assumptions.now problem.entry.lemmas
        (left problem.entry.lemmas search.old.watch search.old.log) o search.new) }
{
    if search.base.is_some() {
        return branch(alloc, problem, search);
    }
    match missing(&search.watch, problem.assumptions) {
        Some(lit) => assume(alloc, problem, search, lit),
        None => {
            search.base = Some(search.watch.trail().len());
            branch(alloc, problem, search)
        }
    }
}

/// Decides an assumption that isn't true. Where it is false, the clauses are refuted.
fn assume(
    alloc: Global,
    problem: Problem<'_>,
    search: &mut Search,
    lit: Lit,
) -> Result<Option<Answer>, NoMemory>
    requires apart { ¬ HasBoth problem.assumptions.now }
    requires invariant { Invariant problem.clauses.now problem.assumptions.now problem.lemmas search.old.watch
        search.old.log search.old.base }
    requires sized { search.old.analysis ≡ search.old.watch.vars + 1 }
    requires base { search.old.base ≡ None }
    requires closed { IsClosed search.old.watch.clauses (lits search.old.watch.steps) }
    requires missing { IsMissing problem.assumptions.now (lits search.old.watch.steps) lit }
    ensures { IfOk result (λ o. IsStep problem.entry.clauses.now problem.entry.assumptions.now problem.entry.lemmas
        (left problem.entry.lemmas search.old.watch search.old.log) o search.new) }
{
    match search.watch.place(lit.var()) {
        Some(place) => {
            let log = contradict(alloc, problem, search, lit, place as usize)?;
            Ok(Some(Answer::Unsat(log)))
        }
        None => {
            decide(search, lit);
            Ok(None)
        }
    }
}

/// The log that refutes, where the negation of an assumption stands in the trail at this place, and all decisions are
/// assumptions: the clause that left no other choice becomes false when the assumption is decided before it.
fn contradict(
    alloc: Global,
    problem: Problem<'_>,
    search: &mut Search,
    lit: Lit,
    place: usize,
) -> Result<Log, NoMemory>
    requires apart { ¬ HasBoth problem.assumptions.now }
    requires logged { Logged problem.clauses.now problem.assumptions.now problem.lemmas search.old.watch
        search.old.log }
    requires sized { search.old.analysis ≡ search.old.watch.vars + 1 }
    requires assumed { AreAssumed problem.assumptions.now search.old.watch.steps (length search.old.watch.steps) }
    requires missing { IsMissing problem.assumptions.now (lits search.old.watch.steps) lit }
    requires place { IsPlaceOf search.old.watch.steps lit.var place }
    ensures { IfOk result (RefutesWithin problem.entry.clauses.now problem.entry.assumptions.now problem.entry.lemmas) }
{
    let reason = reason_at(problem, search.watch.trail(), lit, place);
    search.watch.undo(place);
    search.watch.decide(lit);
    refute(alloc, problem, search, reason)
}

/// The reason of the step that makes an assumption false.
fn reason_at(problem: Problem<'_>, trail: &[Step], lit: Lit, place: usize) -> u32
    requires apart { ¬ HasBoth problem.assumptions.now }
    requires assumed { AreAssumed problem.assumptions.now trail.now (length trail.now) }
    requires missing { IsMissing problem.assumptions.now (lits trail.now) lit }
    requires place { IsPlaceOf trail.now lit.var place }
    ensures { IsReasonOf trail.now place (opposite lit) result }
{
    trail[place].reason.unwrap()
}

/// Decides a literal whose variable isn't in the trail, once all assumptions are true. Where there is none, the trail
/// makes all clauses true.
fn branch(
    alloc: Global,
    problem: Problem<'_>,
    search: &mut Search,
) -> Result<Option<Answer>, NoMemory>
    requires invariant { Invariant problem.clauses.now problem.assumptions.now problem.lemmas search.old.watch
        search.old.log search.old.base }
    requires sized { search.old.analysis ≡ search.old.watch.vars + 1 }
    requires base { IsSome search.old.base }
    requires closed { IsClosed search.old.watch.clauses (lits search.old.watch.steps) }
    ensures { IfOk result (λ o. IsStep problem.entry.clauses.now problem.entry.assumptions.now problem.entry.lemmas
        (left problem.entry.lemmas search.old.watch search.old.log) o search.new) }
{
    match free_literal(&search.watch, &mut search.order) {
        Some(lit) => {
            decide(search, lit);
            Ok(None)
        }
        None => {
            // `len` tells that each of them is a clause
            let _count = search.watch.clauses().len();
            let found = assignment(alloc, &search.watch)?;
            Ok(Some(Answer::Sat(found)))
        }
    }
}

/// Decides a literal.
fn decide(search: &mut Search, lit: Lit)
    requires up_to { lit.var ≤ search.old.watch.vars }
    requires absent { All (λ s. s.lit.var ≢ lit.var) search.old.watch.steps }
    ensures watch { search.new.watch ≡ record search.old.watch
        { steps = search.old.watch.steps ++ record { lit = lit; reason = None } ∷ [] } }
    ensures log { search.new.log ≡ search.old.log }
    ensures base { search.new.base ≡ search.old.base }
    ensures analysis { search.new.analysis ≡ search.old.analysis }
    ensures room { length search.old.watch.steps < search.old.watch.vars }
{
    search.watch.decide(lit);
}
