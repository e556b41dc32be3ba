//! The least fuel with which arguments fail a check.

ghost use Rattle.std.specs.Prelude.{◌<◌, ◌≤◌, ◌↔◌, IfOk, IsTrue, length, slice_get};
ghost use Rattle.pp_limits.specs.declared.TheConstants.{FUEL, ROUNDS};
ghost use Rattle.pp_eval.specs.Runs.{AreArguments};
ghost use Rattle.pp_small.specs.Failing.{FailWith, IsLeastFuel};

use crate::NoMemory;
use crate::failing::fails;
use pp_prog::{CheckId, FunctionId, Program, Value};
use pp_stack::run;
use std::alloc::Global;

/// The least fuel with which the function's run on these arguments fails the check, which it does with this fuel. The
/// only error is want of memory.
pub fn least_fuel(
    alloc: Global,
    program: &Program,
    function: FunctionId,
    check: CheckId,
    args: &[Value],
    fuel: u32,
) -> Result<u32, NoMemory>
    requires function { function.0 < length program.now.functions }
    requires arguments { AreArguments program.now.types.ctors (slice_get program.now.functions function.0) args.now }
    requires fuel { fuel ≤ ROUNDS.most }
    requires fails { FailWith program.now function.0 check args.now fuel }
    ensures most { IfOk result (λ n. n ≤ fuel) }
    ensures least { IfOk result (IsLeastFuel program.now function.0 check args.now) }
{
    for less in 0..fuel {
        if fails_with(alloc, program, function, check, args, less)? {
            return Ok(less);
        }
    }
    Ok(fuel)
}

/// Whether the run of the function on these arguments, with this fuel, fails the check.
fn fails_with(
    alloc: Global,
    program: &Program,
    function: FunctionId,
    check: CheckId,
    args: &[Value],
    fuel: u32,
) -> Result<bool, NoMemory>
    requires function { function.0 < length program.now.functions }
    requires arguments { AreArguments program.now.types.ctors (slice_get program.now.functions function.0) args.now }
    requires fuel { fuel ≤ FUEL.most }
    ensures { IfOk result (λ yes. IsTrue yes ↔ FailWith program.now function.0 check args.now fuel) }
{
    let outcome = run(alloc, program, function, args, fuel)?;
    Ok(fails(&outcome, check))
}
