//! The report of a program.

ghost use Rattle.std.specs.Prelude.{◌≡◌, IfOk, length};
ghost use Rattle.pp_checks.specs.Plan.{IsPlanOf};
ghost use Rattle.pp_induct.specs.Reports.{AreEnds, AreLimits, IsReport};
ghost use Rattle.pp_induct.specs.Verdicts.{ValidAreGood};

use crate::NoMemory;
use crate::cones::prove_cones;
use crate::rounds::end_of_check;
use crate::shared::Shared;
use pp_checks::Plan;
use pp_induct::{Ends, Limits, Report, conclude};
use pp_list::Items;
use pp_prog::{CheckId, FunctionId, Program};
use std::alloc::Global;

/// Works on each check within the limits, proves together what is open for the size of its rounds where that can be
/// done, and gives each function its verdict. A function that is valid is good: every call that meets the precondition
/// evaluates, with some fuel, to a value that meets the postcondition. The only error is want of memory.
pub fn verify(
    alloc: Global,
    program: &Program,
    plan: &Plan,
    limits: Limits,
) -> Result<Report, NoMemory>
    requires plan { IsPlanOf plan.now program.now }
    requires limits { AreLimits limits }
    ensures report { IfOk result (λ report. IsReport program.now limits report) }
    ensures valid { IfOk result (λ report. ValidAreGood program.now report.verdicts) }
{
    let ends = ends_of_checks(alloc, program, plan, limits)?;
    let checks = prove_cones(alloc, program, plan, limits, ends)?;
    let verdicts = conclude(alloc, program, plan, checks.as_slice())?;
    Ok(Report { checks, verdicts })
}

/// The end of each check.
fn ends_of_checks(
    alloc: Global,
    program: &Program,
    plan: &Plan,
    limits: Limits,
) -> Result<Ends, NoMemory>
    requires plan { IsPlanOf plan.now program.now }
    requires limits { AreLimits limits }
    ensures size { IfOk result (λ ends. length ends ≡ length program.now.checks) }
    ensures ends { IfOk result (λ ends. AreEnds program.now limits ends) }
{
    let checks = program.checks();
    let mut ends = Items::new(alloc);
    let mut owner = FunctionId(0);
    let mut shared = Shared::new(alloc);
    for c in 0..checks.len() {
        let function = checks[c].function;
        shared.turn_to(alloc, owner, function);
        owner = function;
        let check = CheckId(c as u32);
        ends.push(end_of_check(alloc, program, plan, function, check, limits, &mut shared)?)?;
    }
    Ok(ends)
}
