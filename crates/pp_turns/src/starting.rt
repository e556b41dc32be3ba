//! The checks of a program before the first turn.

ghost use Rattle.std.specs.Prelude.{◌≡◌, [], IfOk, length};
ghost use Rattle.pp_checks.specs.Plan.{IsPlanOf};
ghost use Rattle.pp_induct.specs.Reports.{AreLimits};
ghost use Rattle.pp_induct.specs.declared.limits.Limits.{Limits as AnyLimits};
ghost use Rattle.pp_turns.specs.Turns.{AreAllShared, AreFirst, AreTurned, AreTurns};

use crate::NoMemory;
use crate::part::Turn;
use crate::turns::Turns;
use pp_checks::Plan;
use pp_induct::Limits;
use pp_list::Items;
use pp_prog::{CheckId, Program};
use pp_verify::{Progress, Shared};
use std::alloc::Global;

impl Turns {
    /// Each check of the program at round 0. The plan, which is that of the program, isn't read before the first turn.
    /// The only error is want of memory, and then all is given up.
    pub fn start(
        alloc: Global,
        program: &Program,
        plan: &Plan,
        limits: Limits,
    ) -> Result<Turns, NoMemory>
        requires plan { IsPlanOf plan.now program.now }
        requires limits { AreLimits limits }
        ensures limits { IfOk result (λ turns. turns.limits ≡ limits) }
        ensures turns { IfOk result (λ turns. AreTurns program.now turns) }
        ensures turned { IfOk result (λ turns. AreTurned [] turns.checks) }
    {
        let checks = first_turns(alloc, program)?;
        let shared = nothing_shared(alloc, program)?;
        Ok(Turns {
            checks,
            shared,
            limits,
        })
    }
}

/// Each check at round 0.
fn first_turns(alloc: Global, program: &Program) -> Result<Items<Turn>, NoMemory>
    ensures size { IfOk result (λ turns. length turns ≡ length program.now.checks) }
    ensures first { IfOk result (λ turns. AreFirst program.now turns) }
{
    let checks = program.checks();
    let mut turns = Items::new(alloc);
    for c in 0..checks.len() {
        let progress = Progress {
            function: checks[c].function,
            check: CheckId(c as u32),
            round: 0,
        };
        turns.push(Turn {
            progress,
            end: None,
        })?;
    }
    Ok(turns)
}

/// For each function that nothing was worked out yet for its checks.
fn nothing_shared(alloc: Global, program: &Program) -> Result<Vec<Shared>, NoMemory>
    ensures size { IfOk result (λ shared. length shared.items ≡ length program.now.functions) }
    ensures shared { IfOk result (λ shared. (limits : AnyLimits) → AreAllShared program.now limits shared.items) }
{
    let mut shared = Vec::new(alloc);
    for _function in 0..program.function_count() {
        shared.push(Shared::new(alloc))?;
    }
    Ok(shared)
}
