//! Steps for which nothing asked is replaced by constants.

ghost use Rattle.std.specs.Prelude.{◌≡◌, ◌<◌, ◌≤◌, length, IfOk, OnOk};
ghost use Rattle.pp_steps.specs.Reads.{AllRead};
ghost use Rattle.pp_simplify.specs.Folded.{all_folded};
ghost use Rattle.pp_simplify.specs.Names.{named};
ghost use Rattle.pp_simplify.specs.Pruned.{AreNeeded, IsPruned};

use crate::NoMemory;
use crate::folding::{Folding, fold};
use crate::marks::{mark, mark_through};
use crate::renaming::named;
use pp_steps::{Step, Steps};
use std::alloc::Global;

/// Puts what is known of a step in its place, and then a constant in the place of each step on which neither one of the
/// first ones, as many as are said, nor the one that has the asked one's value stands: the number of this one. The only
/// error is want of memory.
pub fn simplify(alloc: Global, steps: &mut Steps, first: usize, asked: u32) -> Result<u32, NoMemory>
    requires reads { AllRead 0 steps.old }
    requires first { first ≤ length steps.old }
    requires asked { asked < length steps.old }
    ensures asked { IfOk result (λ n. n ≡ named (all_folded steps.old).names asked) }
    ensures pruned { IfOk result (λ n. IsPruned first n (all_folded steps.old).steps steps.new) }
{
    let Folding {
        steps: folded,
        names,
    } = fold(alloc, steps.as_slice())?;
    *steps = folded;
    let name = named(names.as_slice(), asked);
    prune(alloc, steps, first, name)?;
    Ok(name)
}

/// Puts a constant in the place of each step on which neither one of the first ones, as many as are said, nor the asked
/// one stands. The only error is want of memory, after which the steps are as they were.
fn prune(alloc: Global, steps: &mut Steps, first: usize, asked: u32) -> Result<(), NoMemory>
    requires reads { AllRead 0 steps.old }
    requires first { first ≤ length steps.old }
    requires asked { asked < length steps.old }
    ensures { OnOk result (IsPruned first asked steps.old steps.new) }
{
    let marks = needed(alloc, steps.as_slice(), first, asked)?;
    for number in 0..marks.len() {
        if !marks[number] {
            steps.set(number, Step::Bool(false));
        }
    }
    Ok(())
}

/// Which steps are needed, by number.
fn needed(alloc: Global, steps: &[Step], first: usize, asked: u32) -> Result<Vec<bool>, NoMemory>
    requires reads { AllRead 0 steps.now }
    requires first { first ≤ length steps.now }
    requires asked { asked < length steps.now }
    ensures { IfOk result (λ r. AreNeeded first asked steps.now r.items) }
{
    let mut marks = vec![in alloc; false; steps.len()]?;
    for number in 0..first {
        marks[number] = true;
    }
    mark(&mut marks, asked);
    for done in 0..steps.len() {
        let place = steps.len() - 1 - done;
        mark_through(&mut marks, place, &steps[place]);
    }
    Ok(marks)
}
