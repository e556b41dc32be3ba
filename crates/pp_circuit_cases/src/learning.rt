//! What is learnt of a clause that decisions make false.

ghost use Rattle.std.specs.Prelude.{IfOk, IfSome, IsTrue};
ghost use Rattle.pp_clause.specs.New.{IsClosed};
ghost use Rattle.pp_trail.specs.Trail.{lits, IsFalse};
ghost use Rattle.pp_cdcl.specs.Reading.{IsFree};
ghost use Rattle.pp_circuit_cases.specs.Conflict.{IsConflict};

use crate::case::Case;
use crate::numbers::push_all;
use crate::solver::push_lits;
use pp_case_line::CaseLine;
use pp_clause::{Clauses, Lemma, Lit, NoMemory, greatest_var, raised};
use pp_learn::{Analysis, Learnt};
use pp_watch::Watch;
use std::alloc::Global;

/// A clause that is false, and the place of the decision that made it so.
#[derive(Clone, Copy)]
struct Conflict {
    number: u32,
    start: u32,
}

/// Adds what is learnt of the first clause that is false, where the assumptions that are open are decided in order,
/// each after the propagation of those before; or what is derived of them alone, where nothing is propagated between.
pub fn push_answer(
    line: &mut CaseLine,
    alloc: Global,
    refutes: bool,
    case: &Case,
) -> Result<(), NoMemory> {
    let decisions = case.assumptions.as_slice();
    let mut watch = watch_over(alloc, &case.clauses, decisions)?;
    if refutes {
        decide_all(&mut watch, decisions);
        push_refuted(line, alloc, &mut watch)
    } else {
        push_learnt(line, alloc, &mut watch, decisions)
    }
}

/// A trail over the clauses that has room for the literals.
pub fn watch_over(alloc: Global, clauses: &Clauses, lits: &[Lit]) -> Result<Watch, NoMemory> {
    Watch::over(alloc, clauses, raised(greatest_var(clauses), lits))
}

/// Decides the literals in order, each with propagation, and adds what is learnt of the first clause that is false.
fn push_learnt(
    line: &mut CaseLine,
    alloc: Global,
    watch: &mut Watch,
    decisions: &[Lit],
) -> Result<(), NoMemory> {
    for lit in decisions {
        if let Some(conflict) = next_conflict(watch, *lit)? {
            return learn_from(line, alloc, watch, conflict);
        }
    }
    line.put("none");
    Ok(())
}

/// Decides those of the literals that are open.
fn decide_all(watch: &mut Watch, decisions: &[Lit]) {
    for lit in decisions {
        if is_free(watch, *lit) {
            watch.decide(*lit);
        }
    }
}

/// Propagates, and adds what is derived of a clause that is false.
fn push_refuted(line: &mut CaseLine, alloc: Global, watch: &mut Watch) -> Result<(), NoMemory> {
    match watch.propagate()? {
        Some(number) => refute_from(line, alloc, watch, number),
        None => {
            line.put("none");
            Ok(())
        }
    }
}

/// Whether the literal may be decided.
pub fn is_free(watch: &Watch, lit: Lit) -> bool
    ensures { IsTrue result → IsFree watch.now.vars watch.now.steps lit }
{
    if lit.var() > watch.vars() {
        return false;
    }
    match watch.place(lit.var()) {
        Some(_) => false,
        None => true,
    }
}

/// Propagates, decides the literal where it is open, and propagates once more. Nothing is learnt of a clause that is
/// false before.
fn next_conflict(watch: &mut Watch, lit: Lit) -> Result<Option<Conflict>, NoMemory>
    ensures { IfOk result (λ o. IfSome o (IsConflict watch.new)) }
{
    match watch.propagate()? {
        Some(_) => Ok(None),
        None => decide(watch, lit),
    }
}

/// Decides the literal where it is open, and propagates. No clause may be false before.
fn decide(watch: &mut Watch, lit: Lit) -> Result<Option<Conflict>, NoMemory>
    requires { IsClosed watch.old.clauses (lits watch.old.steps) }
    ensures { IfOk result (λ o. IfSome o (IsConflict watch.new)) }
{
    let Ok(start) = u32::try_from(watch.trail().len()) else {
        return Ok(None);
    };
    if !is_free(watch, lit) {
        return Ok(None);
    }
    watch.decide(lit);
    match watch.propagate()? {
        Some(number) => Ok(Some(Conflict { number, start })),
        None => Ok(None),
    }
}

/// Adds what is learnt of a clause that a decision made false.
fn learn_from(
    line: &mut CaseLine,
    alloc: Global,
    watch: &Watch,
    conflict: Conflict,
) -> Result<(), NoMemory>
    requires { IsConflict watch.now conflict }
{
    let mut analysis = Analysis::new(alloc, watch.vars())?;
    let learnt = analysis.learn(
        alloc,
        watch.clauses(),
        watch.trail(),
        watch.places(),
        conflict.number,
        conflict.start,
    )?;
    push_parts(line, &learnt);
    line.put(", met");
    push_all(line, analysis.met());
    Ok(())
}

/// Adds what is derived of the decisions alone from a clause that is false.
fn refute_from(
    line: &mut CaseLine,
    alloc: Global,
    watch: &Watch,
    number: u32,
) -> Result<(), NoMemory>
    requires { IsFalse watch.now.clauses (lits watch.now.steps) number }
{
    let mut analysis = Analysis::new(alloc, watch.vars())?;
    let lemma = analysis.refute(
        alloc,
        watch.clauses(),
        watch.trail(),
        watch.places(),
        number,
    )?;
    push_lemma(line, &lemma);
    Ok(())
}

/// Adds a lemma, its literal that the last decision made false, and how many steps make the others false.
fn push_parts(line: &mut CaseLine, learnt: &Learnt) {
    push_lemma(line, &learnt.lemma);
    line.put(", literal");
    push_lits(line, &[learnt.literal]);
    line.put(", back ");
    line.put(learnt.back);
}

/// Adds the clause of a lemma, and the numbers of the clauses that derive it.
fn push_lemma(line: &mut CaseLine, lemma: &Lemma) {
    line.put("lemma");
    push_lits(line, lemma.clause.lits());
    line.put(", chain");
    push_all(line, lemma.chain.numbers());
}
