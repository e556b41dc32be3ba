//! The two evaluators beside each other: the definition as a plain program, and the machine.

ghost use Rattle.std.specs.Prelude.{◌<◌, ◌≤◌, [], All, length, slice_get};
ghost use Rattle.pp_eval.specs.Runs.{AreArguments};
ghost use Rattle.pp_front.specs.Programs.{IsShort};
ghost use Rattle.pp_limits.specs.declared.TheConstants.{MOST_NESTED, MOST_SOURCES};

use pp_case_line::NoMemory;
use pp_eval::Outcome;
use pp_front::accept;
use pp_limits::MOST_NESTED;
use pp_prog::{FunctionId, Program};
use pp_words::Task;
use std::alloc::Global;

fn are_one(a: &Outcome, b: &Outcome) -> bool {
    match (a, b) {
        (Outcome::Done(x), Outcome::Done(y)) => x.same(y),
        (Outcome::Outside, Outcome::Outside) | (Outcome::Deep, Outcome::Deep) => true,
        (Outcome::Fails(c), Outcome::Fails(d)) => *c == *d,
        (Outcome::Inner(f, c), Outcome::Inner(g, d)) => *f == *g && *c == *d,
        _ => false,
    }
}

/// Whether both give one outcome of the function with this printed name. Where there is none to run, they do.
fn agree_on(alloc: Global, program: &Program, name: &str, fuel: u32) -> Result<bool, NoMemory> {
    let Some(f) = program.find(name) else {
        return Ok(true);
    };
    if program.function(f).params.len() > 0 || fuel > MOST_NESTED {
        return Ok(true);
    }
    let plain = pp_eval::run(alloc, program, f, &[], fuel)?;
    is_machine_run(alloc, program, f, fuel, &plain)
}

/// Whether the machine gives this outcome of a function without parameters.
fn is_machine_run(
    alloc: Global,
    program: &Program,
    f: FunctionId,
    fuel: u32,
    outcome: &Outcome,
) -> Result<bool, NoMemory>
    requires function { f.0 < length program.now.functions }
    requires no_arguments { AreArguments program.now.types.ctors (slice_get program.now.functions f.0) [] }
    requires fuel { fuel ≤ MOST_NESTED }
{
    Ok(are_one(outcome, &pp_stack::run(alloc, program, f, &[], fuel)?))
}

/// Whether both evaluators give one outcome, where the task is a run that the plain one can make, of accepted sources.
pub fn agree(alloc: Global, task: &Task, sources: &[Vec<u8>]) -> Result<bool, NoMemory>
    requires few { length sources.now ≤ MOST_SOURCES }
    requires short { All IsShort sources.now }
{
    let Task::Run { function, fuel } = task else {
        return Ok(true);
    };
    agree_on_sources(alloc, function, *fuel, sources)
}

/// Whether both give one outcome, where the sources are accepted.
fn agree_on_sources(
    alloc: Global,
    name: &str,
    fuel: u32,
    sources: &[Vec<u8>],
) -> Result<bool, NoMemory>
    requires few { length sources.now ≤ MOST_SOURCES }
    requires short { All IsShort sources.now }
{
    match accept(alloc, sources) {
        Ok(accepted) => agree_on(alloc, &accepted.program, name, fuel),
        Err(_) => Ok(true),
    }
}
