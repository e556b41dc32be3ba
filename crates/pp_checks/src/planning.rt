//! The making of a plan.

ghost use Rattle.std.specs.Prelude.{◌≡◌, IfOk, MatchResult, length};
ghost use Rattle.pp_prog.specs.Calls.{call_table};
ghost use Rattle.pp_checks.specs.Plan.{IsPlanOf};
ghost use Rattle.pp_checks.specs.Rules.{IsFault, KeepRules};

use crate::heights::tallest_of;
use crate::nesting::nestings_of;
use crate::plain::plains_of;
use crate::ranks::{ranks_of, rows_of};
use crate::rules::check_rules;
use crate::{NoMemory, Plan, PlanFault};
use pp_list::Items;
use pp_prog::{Program, call_table};
use std::alloc::Global;

/// The plan of the program, where each function keeps the rules of measures. Else the fault names the first function
/// that breaks one, in program order, and the first rule that it breaks.
pub fn plan(alloc: Global, program: &Program) -> Result<Plan, PlanFault>
    ensures { MatchResult result (λ p. IsPlanOf p program.now)
        (λ e. IsFault program.now.types program.now.functions e) }
{
    let calls = call_table(alloc, program.functions.as_slice())?;
    match check_rules(alloc, program, calls.as_slice()) {
        Ok(()) => {}
        Err(fault) => return Err(fault),
    }
    match tables_of(alloc, program, calls.as_slice()) {
        Ok(plan) => Ok(plan),
        Err(_) => Err(PlanFault::Memory),
    }
}

/// The plan of a program whose functions keep the rules and call these functions.
fn tables_of(alloc: Global, program: &Program, calls: &[Items<u32>]) -> Result<Plan, NoMemory>
    requires calls { calls.now ≡ call_table program.now.functions }
    requires rules { KeepRules program.now.types program.now.functions (length program.now.functions) }
    ensures { IfOk result (λ p. IsPlanOf p program.now) }
{
    let rows = rows_of(alloc, calls)?;
    let ranks = ranks_of(alloc, rows.as_slice())?;
    let nestings = nestings_of(alloc, calls)?;
    let tallest = tallest_of(alloc, program)?;
    let plains = plains_of(alloc, program.functions.as_slice(), program.checks().len())?;
    let checks = Items::from_slice(alloc, program.checks())?;
    Ok(Plan {
        checks,
        rows,
        ranks,
        nestings,
        tallest,
        plains,
    })
}
