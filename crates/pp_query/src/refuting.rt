//! Answers without a query: it is refuted by cases that a guess run, or a run on any arguments, fails a check.

ghost use Rattle.std.specs.Prelude.{◌≡◌, ◌<◌, ℕ, true, IfOk, length};
ghost use Rattle.pp_checks.specs.Plan.{IsPlanOf};
ghost use Rattle.pp_induction.specs.Ends.{NoGuessFails, NoRunFails};
ghost use Rattle.pp_sound.specs.Sound.{IsCheckOf};

use crate::NoMemory;
use pp_checks::Plan;
use pp_closure::refuted;
use pp_compile::{compile_guess, compile_run};
use pp_prog::{CheckId, Program};
use pp_symbolic::owner;
use std::alloc::Global;

/// Whether it is refuted that a guess run of the round fails the check; else nothing is known. The only error is want
/// of memory, which is also more than 2^32 - 1 steps.
pub(crate) fn no_guess_fails(
    alloc: Global,
    program: &Program,
    plan: &Plan,
    check: CheckId,
    round: u32,
) -> Result<bool, NoMemory>
    requires plan { IsPlanOf plan.now program.now }
    requires check { check.0 < length program.now.checks }
    ensures none { IfOk result (λ r. r ≡ true → (i : ℕ) → IsCheckOf program.now i check.0
        → NoGuessFails program.now i check round) }
{
    let f = owner(program, check);
    let guess = compile_guess(alloc, program.functions.as_slice(), f, check, round)?;
    let (steps, supposed) = (guess.steps.as_slice(), guess.supposed.as_slice());
    let refuted = refuted(alloc, program.types(), steps, guess.fails, supposed)?;
    Ok(refuted)
}

/// Whether it is refuted that a run with the fuel `round` fails the check, on arguments of any height; else nothing is
/// known. The only error is want of memory, which is also more than 2^32 - 1 steps.
pub(crate) fn no_run_fails(
    alloc: Global,
    program: &Program,
    plan: &Plan,
    check: CheckId,
    round: u32,
) -> Result<bool, NoMemory>
    requires plan { IsPlanOf plan.now program.now }
    requires check { check.0 < length program.now.checks }
    ensures none { IfOk result (λ r. r ≡ true → (i : ℕ) → IsCheckOf program.now i check.0
        → NoRunFails program.now i check round) }
{
    let f = owner(program, check);
    let compiled = compile_run(alloc, program.functions.as_slice(), f, check, round)?;
    let steps = compiled.steps.as_slice();
    let never = refuted(alloc, program.types(), steps, compiled.fails, &[])?;
    Ok(never)
}
