//! Rounds that are left to the fronts: their estimate is so large that it tells nothing of what is done there. Small
//! arguments are tried first, and then proofs by cases.

ghost use Rattle.std.specs.Prelude.{◌≡◌, ◌<◌, ◌≤◌, ℕ, All, IfOk, IfSome, IsTrue, OnOk, Some, length, slice_get};
ghost use Rattle.pp_checks.specs.Plan.{IsPlanOf};
ghost use Rattle.pp_induct.specs.Reports.{AreLimits, IsEnd, IsFronted};
ghost use Rattle.pp_prog.specs.declared.program.Program.{Program as AnyProgram};
ghost use Rattle.pp_induct.specs.declared.limits.Limits.{Limits as AnyLimits};
ghost use Rattle.pp_sound.specs.Sound.{IsCheckOf};
ghost use Rattle.pp_small.specs.Failing.{IsFailure};
ghost use Rattle.pp_small.specs.declared.failures.Failure.{Failure as AnyFailure};
ghost use Rattle.pp_verify.specs.Rounds.{HasCome};
ghost use Rattle.pp_verify.specs.Shared.{AreShared};

use crate::NoMemory;
use crate::progress::{Progress, open_before};
use crate::shared::Shared;
use crate::sizes::size_of;
use pp_checks::Plan;
use pp_induct::{CheckEnd, Limits, Why};
use pp_list::at;
use pp_prog::{CheckId, FunctionId, Program, Values};
use pp_query::{guesses_refuted, runs_refuted};
use pp_small::{Failure, Failures, least_fuel, small_failures};
use std::alloc::Global;

/// In how many of the rounds that are left to the fronts proofs by cases are tried: of a later round they rarely know
/// more, and each costs more than the one before.
const MOST_FRONTED: u32 = 2;

/// Up to which estimate, with arguments of height 1, cases of a round are tried. It is some ten times the number of
/// steps, so it bounds the memory that they take.
const MOST_ESTIMATED: u64 = 20_000_000;

/// The end of a check whose next round is left to the fronts, as then each later one is: the least fuel with which
/// small arguments fail it, where such were found; else what is refuted by cases; else it is open. The only error is
/// want of memory.
pub(crate) fn end_by_fronts(
    alloc: Global,
    program: &Program,
    plan: &Plan,
    limits: Limits,
    progress: Progress,
    shared: &mut Shared,
) -> Result<CheckEnd, NoMemory>
    requires plan { IsPlanOf plan.now program.now }
    requires limits { AreLimits limits }
    requires come { HasCome program.now limits progress }
    requires fronted { IsFronted program.now limits progress.function.0 progress.check progress.round }
    requires shared { AreShared program.now limits progress.function.0 shared.old }
    ensures end { IfOk result (λ end. IsEnd program.now limits progress.function.0 progress.check end) }
    ensures shared { OnOk result (AreShared program.now limits progress.function.0 shared.new) }
{
    let Progress {
        function,
        check,
        ..
    } = progress;
    look(alloc, program, limits, function, shared)?;
    match take(shared, check) {
        Some(args) => {
            let least = least_fuel(
                alloc,
                program,
                function,
                check,
                args.as_slice(),
                limits.rounds,
            )?;
            Ok(CheckEnd::Invalid(args, least))
        }
        None => end_by_cases(alloc, program, plan, limits, progress, shared),
    }
}

/// The end of the check by cases, in the first of the rounds in which they settle it; else it is open.
fn end_by_cases(
    alloc: Global,
    program: &Program,
    plan: &Plan,
    limits: Limits,
    progress: Progress,
    shared: &mut Shared,
) -> Result<CheckEnd, NoMemory>
    requires plan { IsPlanOf plan.now program.now }
    requires limits { AreLimits limits }
    requires come { HasCome program.now limits progress }
    requires fronted { IsFronted program.now limits progress.function.0 progress.check progress.round }
    requires shared { AreShared program.now limits progress.function.0 shared.old }
    ensures end { IfOk result (λ end. IsEnd program.now limits progress.function.0 progress.check end) }
    ensures shared { OnOk result (AreShared program.now limits progress.function.0 shared.new) }
{
    for more in 0..MOST_FRONTED {
        let round = progress.round + more;
        if !is_affordable(
            alloc,
            program,
            plan,
            limits,
            Progress { round, ..progress },
            shared,
        )? {
            break;
        }
        if let Some(end) = settle(alloc, program, plan, limits, progress, round)? {
            return Ok(end);
        }
    }
    Ok(open_before(progress.round, Why::Size))
}

/// Whether the round is one of those that are asked for, and cases of it aren't too dear, by themselves and with those
/// that were tried before. Then they count as tried.
fn is_affordable(
    alloc: Global,
    program: &Program,
    plan: &Plan,
    limits: Limits,
    progress: Progress,
    shared: &mut Shared,
) -> Result<bool, NoMemory>
    requires plan { IsPlanOf plan.now program.now }
    requires limits { AreLimits limits }
    requires check { IsCheckOf program.now progress.function.0 progress.check.0 }
    requires shared { AreShared program.now limits progress.function.0 shared.old }
    ensures round { IfOk result (λ yes. IsTrue yes → progress.round ≤ limits.rounds) }
    ensures shared { OnOk result (AreShared program.now limits progress.function.0 shared.new) }
{
    if progress.round > limits.rounds {
        return Ok(false);
    }
    let size = size_of(alloc, program, plan, progress, 1, &mut shared.lowest)?;
    if size > MOST_ESTIMATED || size > shared.left {
        return Ok(false);
    }
    shared.left -= size;
    Ok(true)
}

/// The end of the check in this round, which is left to the fronts: where it is refuted that a run fails it, and the
/// function is closed, or it is refuted that a guess run does.
fn settle(
    alloc: Global,
    program: &Program,
    plan: &Plan,
    limits: Limits,
    progress: Progress,
    round: u32,
) -> Result<Option<CheckEnd>, NoMemory>
    requires plan { IsPlanOf plan.now program.now }
    requires limits { AreLimits limits }
    requires come { HasCome program.now limits progress }
    requires fronted { IsFronted program.now limits progress.function.0 progress.check progress.round }
    requires from { progress.round ≤ round }
    requires to { round ≤ limits.rounds }
    ensures { IfOk result (λ end. IfSome end (IsEnd program.now limits progress.function.0 progress.check)) }
{
    let Progress {
        function,
        check,
        ..
    } = progress;
    if !runs_refuted(alloc, program, plan, check, round)? {
        return Ok(None);
    }
    if plan.closed(function, round, limits.depth) {
        return Ok(Some(CheckEnd::Exhausted(round)));
    }
    if guesses_refuted(alloc, program, plan, check, round)? {
        return Ok(Some(CheckEnd::Proved(round)));
    }
    Ok(None)
}

/// Looks for small arguments that fail checks of the function, where that wasn't done yet. The only error is want of
/// memory.
fn look(
    alloc: Global,
    program: &Program,
    limits: Limits,
    function: FunctionId,
    shared: &mut Shared,
) -> Result<(), NoMemory>
    requires function { function.0 < length program.now.functions }
    requires limits { AreLimits limits }
    requires shared { AreShared program.now limits function.0 shared.old }
    ensures { OnOk result (AreShared program.now limits function.0 shared.new) }
{
    if shared.failures.is_none() {
        let failures = small_failures(alloc, program, function, limits.rounds, limits.depth)?;
        shared.failures = Some(failures);
    }
    Ok(())
}

/// Takes out the arguments that were found to fail the check.
fn take(shared: &mut Shared, check: CheckId) -> Option<Values>
    ensures shared { (p : AnyProgram) (limits : AnyLimits) (i : ℕ) → AreShared p limits i shared.old
        → AreShared p limits i shared.new }
    ensures args { (p : AnyProgram) (limits : AnyLimits) (i : ℕ) → AreShared p limits i shared.old
        → IfSome result (λ args. IsFailure p i limits.rounds limits.depth (record { check = check; args = args })) }
{
    match &mut shared.failures {
        Some(failures) => take_out(failures, check),
        None => None,
    }
}

/// Takes the first failure of the check out of the list.
fn take_out(failures: &mut Failures, check: CheckId) -> Option<Values>
    ensures rest { (p : AnyProgram) (i n d : ℕ) → All (IsFailure p i n d) failures.old
        → All (IsFailure p i n d) failures.new }
    ensures args { (p : AnyProgram) (i n d : ℕ) → All (IsFailure p i n d) failures.old
        → IfSome result (λ args. IsFailure p i n d (record { check = check; args = args })) }
{
    match place_of(failures.as_slice(), check) {
        Some(place) => {
            let Failure { args, .. } = failures.remove(place);
            Some(args)
        }
        None => None,
    }
}

/// Where the first failure of the check is.
fn place_of(failures: &[Failure], check: CheckId) -> Option<usize>
    ensures { IfSome result (λ place. (f : AnyFailure) × (slice_get failures.now place ≡ Some f) × (f.check ≡ check)) }
{
    for place in 0..failures.len() {
        if let Some(failure) = at(failures, place)
            && failure.check == check
        {
            return Some(place);
        }
    }
    None
}
