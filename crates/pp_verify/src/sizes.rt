//! The estimates of a function's rounds, each worked out once for all its checks.

ghost use Rattle.std.specs.Prelude.{◌≡◌, ◌≤◌, IfOk, OnOk};
ghost use Rattle.pp_limits.specs.declared.TheConstants.{DEPTH, ROUNDS};
ghost use Rattle.pp_checks.specs.Plan.{IsPlanOf};
ghost use Rattle.pp_estimate.specs.Estimates.{estimate};
ghost use Rattle.pp_sound.specs.Sound.{IsCheckOf};
ghost use Rattle.pp_verify.specs.Sizes.{AreSizes};

use crate::NoMemory;
use crate::progress::Progress;
use pp_checks::Plan;
use pp_estimate::estimate;
use pp_list::Items;
use pp_prog::Program;
use std::alloc::Global;

/// The estimates of the first rounds of a function, as many as were asked for.
pub(crate) type Sizes = Items<u64>;

/// The estimate of the round to which the work on a check has come, with arguments up to the depth. None is worked out
/// again that is known. The only error is want of memory.
pub(crate) fn size_of(
    alloc: Global,
    program: &Program,
    plan: &Plan,
    progress: Progress,
    depth: u32,
    sizes: &mut Sizes,
) -> Result<u64, NoMemory>
    requires plan { IsPlanOf plan.now program.now }
    requires check { IsCheckOf program.now progress.function.0 progress.check.0 }
    requires round { progress.round ≤ ROUNDS.most }
    requires depth { (1 ≤ depth) × (depth ≤ DEPTH.most) }
    requires sizes { AreSizes program.now progress.function.0 depth sizes.old }
    ensures size { IfOk result (λ e. e ≡ estimate program.now.types program.now.functions program.now.checks
        progress.check.0 progress.round depth) }
    ensures sizes { OnOk result (AreSizes program.now progress.function.0 depth sizes.new) }
{
    let Progress { check, round, .. } = progress;
    for next in 0..round + 1 {
        if next as usize == sizes.len() {
            let size = estimate(alloc, program, plan, check, next, depth)?;
            sizes.push(size)?;
        }
    }
    match pp_list::at(sizes.as_slice(), round as usize) {
        Some(size) => Ok(*size),
        None => estimate(alloc, program, plan, check, round, depth),
    }
}
