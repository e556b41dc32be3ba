//! What is decided next.
ghost use Rattle.std.specs.Prelude.{◌≡◌, ◌≢◌, ◌≤◌, ◌^◌, true, All, IfSome, IfNone, IfOk, IsTrue};
ghost use Rattle.pp_clause.specs.Clause.{has};
ghost use Rattle.pp_trail.specs.Trail.{lits};
ghost use Rattle.pp_cdcl.specs.Reading.{IsFull, IsFree, Reads};
ghost use Rattle.pp_cdcl.specs.Step.{IsMissing};

use crate::NoMemory;
use crate::order::Order;
use pp_clause::{Assignment, Lit};
use pp_watch::Watch;
use std::alloc::Global;

/// The first assumption that isn't true.
pub fn missing(watch: &Watch, assumptions: &[Lit]) -> Option<Lit>
    ensures some { IfSome result (IsMissing assumptions.now (lits watch.now.steps)) }
    ensures none { IfNone result (All (λ a. has (lits watch.now.steps) a ≡ true) assumptions.now) }
{
    for lit in assumptions {
        match watch.value(*lit) {
            Some(true) => {}
            _ => return Some(*lit),
        }
    }
    None
}

/// A literal whose variable isn't in the trail: the first in order that is such, and else any.
pub fn free_literal(watch: &Watch, order: &mut Order) -> Option<Lit>
    requires { watch.now.vars ≤ 2 ^ 30 }
    ensures some { IfSome result (IsFree watch.now.vars watch.now.steps) }
    ensures none { IfNone result (IsFull watch.now.vars watch.now.steps) }
{
    for _ in 0..order.len() {
        let Some(lit) = order.pop() else {
            break;
        };
        if is_free(watch, lit) {
            return Some(lit);
        }
    }
    any_free(watch)
}

/// Whether the literal's variable may be decided.
fn is_free(watch: &Watch, lit: Lit) -> bool
    ensures { IsTrue result → IsFree watch.now.vars watch.now.steps lit }
{
    if lit.var() > watch.vars() {
        return false;
    }
    match watch.place(lit.var()) {
        Some(_) => false,
        None => true,
    }
}

/// A literal of the first variable that isn't in the trail.
fn any_free(watch: &Watch) -> Option<Lit>
    requires { watch.now.vars ≤ 2 ^ 30 }
    ensures some { IfSome result (IsFree watch.now.vars watch.now.steps) }
    ensures none { IfNone result (IsFull watch.now.vars watch.now.steps) }
{
    for before in 0..watch.vars() {
        let var = before + 1;
        if let None = watch.place(var) {
            return Some(Lit::new(var, false));
        }
    }
    None
}

/// The assignment that makes the literals of the trail true, and other variables false.
pub fn assignment(alloc: Global, watch: &Watch) -> Result<Assignment, NoMemory>
    ensures { IfOk result (λ a. Reads a (lits watch.now.steps)) }
{
    let mut values = vec![in alloc; false; watch.vars() as usize]?;
    for step in watch.trail() {
        values[step.lit.var() as usize - 1] = step.lit.is_positive();
    }
    Assignment::of(alloc, &values)
}
