//! Runs of functions on given arguments.

ghost use Rattle.std.specs.Prelude.{◌≡◌, ◌<◌, ◌≤◌, IfOk, length};
ghost use Rattle.pp_prog.specs.Sorts as spec;

use anyhow::{Result, ensure};
use pp_eval::{Outcome, run};
use pp_list::Items;
use pp_prog::{CheckId, FunctionId, Param, Program, Sorts, Value};
use pp_small::are_arguments;
use std::alloc::Global;

/// Whether the run of the function on the arguments, with this fuel, fails the check.
pub fn run_fails(
    alloc: Global,
    program: &Program,
    f: FunctionId,
    arguments: &[Value],
    check: CheckId,
    fuel: u32,
) -> Result<bool>
    requires function { f.0 < length program.now.functions }
    requires fuel { fuel ≤ 100 }
{
    ensure!(
        are_arguments(program, f, arguments),
        "values of other sorts"
    );
    match run(alloc, program, f, arguments, fuel)? {
        Outcome::Fails(found) => Ok(found == check),
        _ => Ok(false),
    }
}

/// The sorts of the parameters.
pub fn sorts_of(alloc: Global, params: &[Param]) -> Result<Sorts>
    ensures { IfOk result (λ sorts. sorts ≡ spec.param_sorts params.now) }
{
    let mut sorts = Items::new(alloc);
    for param in params {
        sorts.push(param.sort)?;
    }
    Ok(sorts)
}
