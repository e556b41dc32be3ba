//! The report of a program whose checks are worked on in turns, pass after pass.

ghost use Rattle.std.specs.Prelude.{◌≡◌, ◌+◌, ◌<◌, ℕ, IfOk};
ghost use Rattle.pp_checks.specs.Plan.{IsPlanOf};
ghost use Rattle.pp_induct.specs.Reports.{AreLimits, IsReport};
ghost use Rattle.pp_induct.specs.Verdicts.{ValidAreGood};
ghost use Rattle.pp_turns.specs.Passes.{AreNamed, place_named};
ghost use Rattle.pp_turns.specs.Turns.{AreTurns};

use crate::NoMemory;
use crate::turns::Turns;
use pp_checks::Plan;
use pp_induct::{Limits, Report};
use pp_prog::{CheckId, Program};
use std::alloc::Global;

/// In which order the checks are named: in that of their numbers, or in the opposite one. Source: own.
#[derive(Clone, Copy, PartialEq, Eq, Debug)]
pub enum Direction {
    Forward,
    Backward,
}

/// Works on all checks within the limits, one round of each that hasn't ended after the other, again and again, and
/// gives each function its verdict. A function that is valid is good: every call that meets the precondition evaluates,
/// with some fuel, to a value that meets the postcondition. The only error is want of memory.
pub fn verify_in_turns(
    alloc: Global,
    program: &Program,
    plan: &Plan,
    limits: Limits,
    order: Direction,
) -> Result<Report, NoMemory>
    requires plan { IsPlanOf plan.now program.now }
    requires limits { AreLimits limits }
    ensures report { IfOk result (λ report. IsReport program.now limits report) }
    ensures valid { IfOk result (λ report. ValidAreGood program.now report.verdicts) }
{
    let mut turns = Turns::start(alloc, program, plan, limits)?;
    for _pass in 0..limits.rounds + 1 {
        turns = one_pass(alloc, program, plan, turns, order)?;
    }
    turns.finish(alloc, program, plan)
}

/// Names each check once. Those that have ended stay as they are.
fn one_pass(
    alloc: Global,
    program: &Program,
    plan: &Plan,
    turns: Turns,
    order: Direction,
) -> Result<Turns, NoMemory>
    requires plan { IsPlanOf plan.now program.now }
    requires turns { AreTurns program.now turns }
    ensures turns { IfOk result (λ after. AreTurns program.now after) }
    ensures limits { IfOk result (λ after. after.limits ≡ turns.limits) }
    ensures named { IfOk result (λ after. (k : ℕ) → AreNamed program.now k turns.checks
        → AreNamed program.now (k + 1) after.checks) }
{
    let count = program.checks().len();
    let mut after = turns;
    for n in 0..count {
        let check = named(order, count as u32, n as u32);
        after = after.turn(alloc, program, plan, check)?;
    }
    Ok(after)
}

/// The check that is named in turn number n of a pass over so many.
fn named(order: Direction, count: u32, n: u32) -> CheckId
    requires { n < count }
    ensures { result.0 ≡ place_named order count n }
{
    match order {
        Direction::Forward => CheckId(n),
        Direction::Backward => CheckId(count - 1 - n),
    }
}
