//! Single steps, demands and choices.

ghost use Rattle.std.specs.Prelude.{◌≡◌, ℕ, IfOk, List, [], ◌∷◌, ◌++◌, false, length, suc};
ghost use Rattle.pp_steps.specs.declared.step.Step.TheVariants as steps;
ghost use Rattle.pp_steps.specs.Compile.{all_of, one, unless, when};
ghost use Rattle.pp_steps.specs.Piece as piece;
ghost use Rattle.pp_steps.specs.Piece.{Piece, plain};
ghost use Rattle.pp_compile.specs.Written.{IsMade, IsWritten, chosen};

use crate::NoMemory;
use crate::work::{Ends, Work};
use pp_prog::Sort;
use pp_steps::Step;

/// One more step, and its number. It has no room for more than 2^32 steps, which counts as want of memory.
pub(crate) fn emit(work: &mut Work, step: Step) -> Result<u32, NoMemory>
    ensures written { IfOk result (λ n. IsWritten work.old work.new (one step n 0)) }
    ensures number { IfOk result (λ n. n ≡ length work.old.steps) }
{
    let number = work.steps.len();
    if number >= u32::MAX as usize {
        return Err(NoMemory);
    }
    work.steps.push(step)?;
    Ok(number as u32)
}

/// A step whose number is an outcome.
pub(crate) fn one(work: &mut Work, step: Step, alive: u32) -> Result<Ends, NoMemory>
    ensures { IfOk result (λ r. IsMade work.old work.new (one step (length work.old.steps) alive) r) }
{
    let out = emit(work, step)?;
    Ok(Ends { out, alive })
}

/// Where both numbers are true.
pub(crate) fn when(work: &mut Work, alive: u32, test: u32) -> Result<u32, NoMemory>
    ensures written { IfOk result (λ n. IsWritten work.old work.new (when (length work.old.steps) alive test)) }
    ensures number { IfOk result (λ n. n ≡ (when (length work.old.steps) alive test).out) }
{
    emit(work, Step::Both(alive, test))
}

/// Where the first number is true and the second isn't.
pub(crate) fn unless(work: &mut Work, alive: u32, test: u32) -> Result<u32, NoMemory>
    ensures written { IfOk result (λ n. IsWritten work.old work.new (unless (length work.old.steps) alive test)) }
    ensures number { IfOk result (λ n. n ≡ (unless (length work.old.steps) alive test).out) }
{
    let not = emit(work, Step::Not(test))?;
    emit(work, Step::Both(alive, not))
}

/// What has to be true for a run to go on. Where this is the asked check, a false test fails it.
pub(crate) fn demand(work: &mut Work, asked: bool, alive: u32, test: u32) -> Result<Ends, NoMemory>
    ensures { IfOk result (λ r. IsMade work.old work.new (piece.demand asked (length work.old.steps) alive test) r) }
{
    let going = emit(work, Step::Both(alive, test))?;
    if asked {
        let not = emit(work, Step::Not(test))?;
        let fails = emit(work, Step::Both(alive, not))?;
        work.fails.push(fails)?;
    }
    Ok(Ends {
        out: test,
        alive: going,
    })
}

/// Two branches, of which the first is the outcome where `taken` is true. The second has the number `right`, unless it
/// never has an outcome.
pub(crate) fn choose(
    work: &mut Work,
    taken: u32,
    left: Ends,
    right: Option<u32>,
    right_alive: u32,
) -> Result<Ends, NoMemory>
    ensures { IfOk result (λ r. IsMade work.old work.new
        (chosen (length work.old.steps) taken left right right_alive) r) }
{
    let alive = emit(work, Step::Choose(taken, left.alive, right_alive))?;
    match right {
        None => Ok(Ends {
            out: left.out,
            alive,
        }),
        Some(right) => {
            let out = emit(work, Step::Choose(taken, left.out, right))?;
            Ok(Ends { out, alive })
        }
    }
}

/// All of the numbers are true, and the first one.
pub(crate) fn all_of(work: &mut Work, tests: &[u32], alive: u32) -> Result<u32, NoMemory>
    ensures written { IfOk result (λ n. IsWritten work.old work.new (all_of (length work.old.steps) tests.now alive)) }
    ensures number { IfOk result (λ n. n ≡ (all_of (length work.old.steps) tests.now alive).out) }
{
    let mut all = alive;
    for test in tests {
        all = when(work, all, *test)?;
    }
    Ok(all)
}

/// A call without an outcome, whose result stands for nothing.
pub(crate) fn stop(work: &mut Work, sort: Sort) -> Result<Ends, NoMemory>
    ensures { IfOk result (λ r. IsMade work.old work.new
        (plain (steps.Open sort ∷ steps.Bool false ∷ []) (length work.old.steps) (suc (length work.old.steps))) r) }
{
    let out = emit(work, Step::Open(sort))?;
    let alive = emit(work, Step::Bool(false))?;
    Ok(Ends { out, alive })
}
