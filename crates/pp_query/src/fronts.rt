//! What is refuted by cases where no circuit is made, since the estimate of the round is too large.

ghost use Rattle.std.specs.Prelude.{◌≡◌, ◌<◌, ◌≤◌, ℕ, true, IfOk, length};
ghost use Rattle.pp_limits.specs.declared.TheConstants.{ROUNDS};
ghost use Rattle.pp_checks.specs.Plan.{IsPlanOf};
ghost use Rattle.pp_induction.specs.Ends.{NoGuessFails, NoRunFails};
ghost use Rattle.pp_sound.specs.Sound.{IsCheckOf};

use crate::NoMemory;
use crate::demanding::no_demanded_guess_fails;
use crate::refuting::{no_guess_fails, no_run_fails};
use pp_checks::Plan;
use pp_prog::{CheckId, Program};
use std::alloc::Global;

/// Whether it is refuted by cases that a run with the fuel `round` fails the check, on arguments of any height. Else
/// nothing is known. No run fails a plain descent. All steps of the round are made, so that time and memory grow with
/// their number. The only error is want of memory.
pub fn runs_refuted(
    alloc: Global,
    program: &Program,
    plan: &Plan,
    check: CheckId,
    round: u32,
) -> Result<bool, NoMemory>
    requires plan { IsPlanOf plan.now program.now }
    requires check { check.0 < length program.now.checks }
    requires round { round ≤ ROUNDS.most }
    ensures none { IfOk result (λ r. r ≡ true → (i : ℕ) → IsCheckOf program.now i check.0
        → NoRunFails program.now i check round) }
{
    if plan.plain(check) {
        return Ok(true);
    }
    no_run_fails(alloc, program, plan, check, round)
}

/// Whether it is refuted by cases that a guess run of the round fails the check. Else nothing is known. No guess run
/// fails a plain descent. All steps of the round are made, as above. The only error is want of memory.
pub fn guesses_refuted(
    alloc: Global,
    program: &Program,
    plan: &Plan,
    check: CheckId,
    round: u32,
) -> Result<bool, NoMemory>
    requires plan { IsPlanOf plan.now program.now }
    requires check { check.0 < length program.now.checks }
    requires round { round ≤ ROUNDS.most }
    ensures none { IfOk result (λ r. r ≡ true → (i : ℕ) → IsCheckOf program.now i check.0
        → NoGuessFails program.now i check round) }
{
    if plan.plain(check) {
        return Ok(true);
    }
    no_guess_fails(alloc, program, plan, check, round)
}

/// Whether it is refuted by cases that a guess run of the round fails the check, where of the calls that it has fuel for
/// those alone are unfolded that the cases want. Else nothing is known. No guess run fails a plain descent. Time and
/// memory are bounded by counts of steps and of work. The only error is want of memory.
pub fn demanded_guesses_refuted(
    alloc: Global,
    program: &Program,
    plan: &Plan,
    check: CheckId,
    round: u32,
) -> Result<bool, NoMemory>
    requires plan { IsPlanOf plan.now program.now }
    requires check { check.0 < length program.now.checks }
    requires round { round ≤ ROUNDS.most }
    ensures none { IfOk result (λ r. r ≡ true → (i : ℕ) → IsCheckOf program.now i check.0
        → NoGuessFails program.now i check round) }
{
    if plan.plain(check) {
        return Ok(true);
    }
    no_demanded_guess_fails(alloc, program, plan, check, round)
}
