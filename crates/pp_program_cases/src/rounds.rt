//! Compares the circuits of rounds with the evaluator, for a small program: a line for each check and round. In how
//! many cases the check fails was worked out by a model of the language in Python that reads the same sources and runs
//! them.
//!
//! The first line of the program is its name. For each check and the rounds 0 to 3 a circuit is built over trees of
//! height at most 2. Then all lists of arguments of such heights, with the Ints -1, 0, 1 and 3, are tried: the solver
//! is asked what `fails` is where the inputs are those of these arguments, and the function is run on them with the
//! round as its fuel. The line says on how many of all lists the run fails the check. Each list on which the circuit
//! says another thing than the run has a line of its own before, with the numbers that spell the arguments.

mod arguments;
mod question;
mod running;

ghost use Rattle.std.specs.Prelude.{◌<◌, ◌≤◌, OnOk, length};
ghost use Rattle.pp_checks.specs.Plan.{IsPlanOf};
ghost use Rattle.pp_program_cases.specs.Round.{CanAsk};

use anyhow::{Result, ensure};
use arguments::{count_lists, list_at};
use pp_bounded::{Bounded, BoundedTree};
use pp_case_line::CaseLine;
use pp_front::Accepted;
use pp_prog::{CheckId, FunctionId, Program, Sort, Value};
use pp_query::Question;
use question::{fails_at, round_question, spelled};
use running::{run_fails, sorts_of};
use std::alloc::Global;

/// The rounds that are tried are those below this.
const ROUNDS: u32 = 4;

/// The greatest height of the arguments that are tried.
pub const DEPTH: u32 = 2;

/// A function whose runs are looked at, the check, and the round.
#[derive(Clone, Copy)]
struct Run {
    f: FunctionId,
    check: CheckId,
    round: u32,
}

/// Compares all rounds of all checks of the program of this name.
pub fn compare_all(alloc: Global, name: &str, accepted: &Accepted, out: &mut CaseLine) -> Result<()>
    requires { IsPlanOf accepted.now.plan accepted.now.program }
{
    for number in 0..accepted.program.checks().len() {
        for round in 0..ROUNDS {
            compare(alloc, name, accepted, CheckId(number as u32), round, out)?;
        }
    }
    Ok(())
}

/// Compares the circuit of a round of the check with the runs of its function, on all lists of arguments.
fn compare(
    alloc: Global,
    name: &str,
    accepted: &Accepted,
    check: CheckId,
    round: u32,
    out: &mut CaseLine,
) -> Result<()>
    requires plan { IsPlanOf accepted.now.plan accepted.now.program }
    requires check { check.0 < length accepted.now.program.checks }
    requires round { round ≤ 12 }
{
    let program = &accepted.program;
    let f = program.checks()[check.0 as usize].function;
    ensure!(f.0 < program.function_count(), "a check of no function");
    let sorts = sorts_of(alloc, program.function(f).params.as_slice())?;
    let mut question = round_question(alloc, accepted, check, round, DEPTH)?;
    let run = Run { f, check, round };
    compare_lists(
        alloc,
        name,
        program,
        run,
        sorts.as_slice(),
        &mut question,
        out,
    )
}

/// Compares the circuit with the runs on all lists of arguments of these sorts.
fn compare_lists(
    alloc: Global,
    name: &str,
    program: &Program,
    run: Run,
    sorts: &[Sort],
    question: &mut Question<Bounded, BoundedTree>,
    out: &mut CaseLine,
) -> Result<()>
    requires function { run.f.0 < length program.now.functions }
    requires round { run.round ≤ 12 }
    requires question { CanAsk program.now.types question.old }
{
    let tried = count_lists(program.types(), sorts, DEPTH);
    let mut failing = 0u64;
    for place in 0..tried {
        let arguments = list_at(alloc, program.types(), sorts, DEPTH, place)?;
        if compare_on(
            alloc,
            name,
            program,
            run,
            question,
            arguments.as_slice(),
            out,
        )? {
            failing = failing.saturating_add(1);
        }
    }
    let (check, round) = (run.check.0, run.round);
    out.put(format_args!("{name} check {check} round {round}: {failing} of {tried} fail\n"));
    Ok(())
}

/// Compares the circuit with the run on these arguments: whether the run fails the check.
fn compare_on(
    alloc: Global,
    name: &str,
    program: &Program,
    run: Run,
    question: &mut Question<Bounded, BoundedTree>,
    arguments: &[Value],
    out: &mut CaseLine,
) -> Result<bool>
    requires function { run.f.0 < length program.now.functions }
    requires round { run.round ≤ 12 }
    requires question { CanAsk program.now.types question.old }
    ensures { OnOk result (CanAsk program.now.types question.new) }
{
    let numbers = spelled(alloc, arguments)?;
    let said = fails_at(alloc, question, program.types(), &numbers)?;
    let fails = run_fails(alloc, program, run.f, arguments, run.check, run.round)?;
    if said != Some(fails) {
        tell_difference(name, run, &numbers, said, fails, out);
    }
    Ok(fails)
}

/// Tells what the circuit and the run say on the arguments that these numbers spell.
fn tell_difference(
    name: &str,
    run: Run,
    numbers: &[i32],
    said: Option<bool>,
    fails: bool,
    out: &mut CaseLine,
) {
    let (check, round) = (run.check.0, run.round);
    out.put(format_args!("{name} check {check} round {round} at"));
    for number in numbers {
        out.put(format_args!(" {number}"));
    }
    out.put(format_args!(": circuit says {said:?}, run says {fails}\n"));
}
