//! The rounds of a check.

ghost use Rattle.std.specs.Prelude.{◌≡◌, ◌<◌, IfOk, OnOk};
ghost use Rattle.pp_checks.specs.Plan.{IsPlanOf};
ghost use Rattle.pp_estimate.specs.Estimates.{estimate};
ghost use Rattle.pp_induct.specs.Reports.{AreLimits, IsBegun, IsEnd, IsSearchedTo};
ghost use Rattle.pp_sound.specs.Sound.{IsCheckOf};
ghost use Rattle.pp_verify.specs.Rounds.{HasCome, StepGives, TellsRepeated};
ghost use Rattle.pp_verify.specs.Shared.{AreShared};

use crate::NoMemory;
use crate::fronts::end_by_fronts;
use crate::progress::{Progress, Step, open_before};
use crate::shared::Shared;
use crate::sizes::size_of;
use pp_checks::Plan;
use pp_induct::{CheckEnd, FRONTED_ABOVE, Limits, Why};
use pp_prog::{CheckId, FunctionId, Program};
use pp_query::{Found, Proof, prove, search};
use std::alloc::Global;

/// Works on a check of the function in rounds 0, 1 and so on, until a round ends it. What the checks of the function
/// share serves its other checks too.
pub(crate) fn end_of_check(
    alloc: Global,
    program: &Program,
    plan: &Plan,
    function: FunctionId,
    check: CheckId,
    limits: Limits,
    shared: &mut Shared,
) -> Result<CheckEnd, NoMemory>
    requires plan { IsPlanOf plan.now program.now }
    requires check { IsCheckOf program.now function.0 check.0 }
    requires limits { AreLimits limits }
    requires shared { AreShared program.now limits function.0 shared.old }
    ensures end { IfOk result (λ end. IsEnd program.now limits function.0 check end) }
    ensures shared { OnOk result (AreShared program.now limits function.0 shared.new) }
{
    let mut progress = Progress {
        function,
        check,
        round: 0,
    };
    loop {
        match step(alloc, program, plan, limits, progress, shared)? {
            Step::Ended(end) => return Ok(end),
            Step::Next(next) => progress = next,
        }
    }
}

/// One round of the work on a check: its end, or how far the work has come. The round isn't begun where its estimate is
/// above the asked number of gates: the check ends, by the fronts where the estimate is so large that it tells nothing.
/// It is passed over where its runs are those of the round before. The only error is want of memory.
pub fn step(
    alloc: Global,
    program: &Program,
    plan: &Plan,
    limits: Limits,
    progress: Progress,
    shared: &mut Shared,
) -> Result<Step, NoMemory>
    requires plan { IsPlanOf plan.now program.now }
    requires limits { AreLimits limits }
    requires come { HasCome program.now limits progress }
    requires shared { AreShared program.now limits progress.function.0 shared.old }
    ensures step { IfOk result (λ step. StepGives program.now limits progress step) }
    ensures shared { OnOk result (AreShared program.now limits progress.function.0 shared.new) }
{
    let round = progress.round;
    let size = size_of(
        alloc,
        program,
        plan,
        progress,
        limits.depth,
        &mut shared.sizes,
    )?;
    if size > limits.gates {
        if size > FRONTED_ABOVE {
            let end = end_by_fronts(alloc, program, plan, limits, progress, shared)?;
            return Ok(Step::Ended(end));
        }
        return Ok(Step::Ended(open_before(round, Why::Size)));
    }
    if is_repeated(plan, progress.function, round) {
        return Ok(progress.after(limits));
    }
    search_round(alloc, program, plan, limits, progress)
}

/// Whether no call was left to unfold in the round before, so that this one's runs are the same.
fn is_repeated(plan: &Plan, function: FunctionId, round: u32) -> bool
    ensures { TellsRepeated plan.now function.0 round result }
{
    round > 0 && plan.nested(function, round - 1)
}

/// A round that is begun: the search, and the proof where nothing is found and the function isn't closed.
fn search_round(
    alloc: Global,
    program: &Program,
    plan: &Plan,
    limits: Limits,
    progress: Progress,
) -> Result<Step, NoMemory>
    requires plan { IsPlanOf plan.now program.now }
    requires limits { AreLimits limits }
    requires come { HasCome program.now limits progress }
    requires begun { IsBegun program.now limits progress.function.0 progress.check progress.round }
    ensures { IfOk result (λ step. StepGives program.now limits progress step) }
{
    let round = progress.round;
    let found = search(
        alloc,
        program,
        plan,
        progress.check,
        round,
        limits.depth,
        limits.lemmas,
    )?;
    match found {
        Found::Args(args) => Ok(Step::Ended(CheckEnd::Invalid(args, round))),
        Found::Spent(spent) => Ok(Step::Ended(open_before(round, Why::Lemmas(spent)))),
        Found::Nothing => {
            if plan.closed(progress.function, round, limits.depth) {
                return Ok(Step::Ended(CheckEnd::Exhausted(round)));
            }
            prove_round(alloc, program, plan, limits, progress)
        }
    }
}

/// The proof of a round that was searched.
fn prove_round(
    alloc: Global,
    program: &Program,
    plan: &Plan,
    limits: Limits,
    progress: Progress,
) -> Result<Step, NoMemory>
    requires plan { IsPlanOf plan.now program.now }
    requires limits { AreLimits limits }
    requires come { HasCome program.now limits progress }
    requires searched { IsSearchedTo program.now limits progress.function.0 progress.check progress.round }
    ensures { IfOk result (λ step. StepGives program.now limits progress step) }
{
    let round = progress.round;
    let proof = prove(alloc, program, plan, progress.check, round, limits.lemmas)?;
    match proof {
        Proof::Proved => Ok(Step::Ended(CheckEnd::Proved(round))),
        Proof::Spent(spent) => Ok(Step::Ended(CheckEnd::Open {
            searched: Some(round),
            why: Why::Lemmas(spent),
        })),
        Proof::NotProved => Ok(progress.after(limits)),
    }
}
