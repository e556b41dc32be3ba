//! How many steps the rounds of checks have.

ghost use Rattle.std.specs.Prelude.{◌<◌, length};

use pp_compile::{compile_guess, compile_run};
use pp_list::at;
use pp_prog::{CheckId, Function, Program};
use pp_symbolic::{Mode, NoMemory};
use std::alloc::Global;

/// How many steps the run of the check's function has in the round, or its guess runs.
pub fn steps_of(
    alloc: Global,
    program: &Program,
    check: CheckId,
    mode: Mode,
    round: u32,
) -> Result<usize, NoMemory>
    requires { check.0 < length program.now.checks }
{
    let functions = program.functions.as_slice();
    let owner = program.checks()[check.0 as usize].function;
    match at(functions, owner.0 as usize) {
        Some(f) => compiled(alloc, functions, f, check, mode, round),
        None => Ok(0),
    }
}

fn compiled(
    alloc: Global,
    functions: &[Function],
    f: &Function,
    check: CheckId,
    mode: Mode,
    round: u32,
) -> Result<usize, NoMemory> {
    Ok(match mode {
        Mode::Real => compile_run(alloc, functions, f, check, round)?.steps.len(),
        Mode::Guess => compile_guess(alloc, functions, f, check, round)?
            .steps
            .len(),
    })
}
