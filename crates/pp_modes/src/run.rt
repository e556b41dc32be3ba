//! Mode `run`.

ghost use Rattle.std.specs.Prelude.{◌≡◌, ◌≤◌, IfOk, slice_get, string_bytes};
ghost use Rattle.pp_limits.specs.declared.TheConstants.{FUEL};
ghost use Rattle.pp_eval.specs.declared.outcome.Outcome.{Outcome};
ghost use Rattle.pp_modes.specs.Responses.{response_of};
ghost use Rattle.pp_modes.specs.Runs as spec;
ghost use Rattle.pp_print.specs.Refusals.{words_text};
ghost use Rattle.pp_modes.specs.Responses as response;

use crate::{NoMemory, Response, Status};
use pp_eval::Outcome;
use pp_list::at;
use pp_print::{deep_line, done_line, fails_line, inner_line, outside_line, words_line};
use pp_prog::{CheckId, FunctionId, Program};
use pp_stack::run;
use pp_store::release;
use std::alloc::Global;

fn status_of(outcome: &Outcome) -> Status
    ensures { result ≡ spec.status_of outcome.now }
{
    match outcome {
        Outcome::Done(_) => Status::AllValid,
        Outcome::Outside => Status::SomeOpen,
        Outcome::Fails(_) => Status::SomeInvalid,
        Outcome::Inner(_, _) => Status::SomeInvalid,
        Outcome::Deep => Status::SomeOpen,
    }
}

fn own_failure(
    alloc: Global,
    program: &Program,
    name: &str,
    check: CheckId,
) -> Result<String, NoMemory>
    ensures { IfOk result (λ line. string_bytes line
        ≡ spec.fails_line name.now (slice_get program.now.checks check.0)) }
{
    match at(program.checks(), check.0 as usize) {
        // a check that a run fails is one of the program's
        None => Ok(String::new(alloc)),
        Some(check) => fails_line(alloc, name, check.kind, check.place),
    }
}

fn inner_failure(
    alloc: Global,
    program: &Program,
    name: &str,
    g: FunctionId,
    check: CheckId,
) -> Result<String, NoMemory>
    ensures { IfOk result (λ line. string_bytes line
        ≡ spec.inner_line name.now (slice_get program.now.functions g.0) (slice_get program.now.checks check.0)) }
{
    // a function that fails one is the program's, and so is the check
    let Some(g) = at(program.functions.as_slice(), g.0 as usize) else {
        return Ok(String::new(alloc));
    };
    match at(program.checks(), check.0 as usize) {
        None => Ok(String::new(alloc)),
        Some(check) => inner_line(alloc, name, g.name.as_str(), check.kind, check.place),
    }
}

/// The line on the outcome of a run.
fn outcome_line(
    alloc: Global,
    program: &Program,
    name: &str,
    fuel: u32,
    outcome: &Outcome,
) -> Result<String, NoMemory>
    ensures { IfOk result (λ line. string_bytes line ≡ spec.outcome_text program.now name.now fuel outcome.now) }
{
    match outcome {
        Outcome::Done(v) => done_line(alloc, program.types().ctors.as_slice(), name, v),
        Outcome::Outside => outside_line(alloc, name),
        Outcome::Fails(check) => own_failure(alloc, program, name, *check),
        Outcome::Inner(g, check) => inner_failure(alloc, program, name, *g, *check),
        Outcome::Deep => deep_line(alloc, name, fuel),
    }
}

fn no_function(alloc: Global) -> Result<Response, NoMemory>
    ensures { IfOk result (λ r. response_of r ≡ response.refusal Status.Words words_text) }
{
    Ok(Response::Refusal(Status::Words, String::from_str(alloc, words_line())?))
}

fn ran(
    alloc: Global,
    program: &Program,
    name: &str,
    fuel: u32,
    outcome: &Outcome,
) -> Result<Response, NoMemory>
    ensures { IfOk result (λ r. response_of r ≡ spec.outcome_report program.now name.now fuel outcome.now) }
{
    let mut lines = Vec::new(alloc);
    lines.push(outcome_line(alloc, program, name, fuel, outcome)?)?;
    Ok(Response::Report(status_of(outcome), lines))
}

/// What is answered to a run of the function with this printed name, with this fuel.
pub(crate) fn answer_run(
    alloc: Global,
    program: &Program,
    name: &str,
    fuel: u32,
) -> Result<Response, NoMemory>
    requires { fuel ≤ FUEL.most }
    ensures { IfOk result (λ r. spec.AnswersRun program.now name.now fuel (response_of r)) }
{
    let Some(f) = program.find(name) else {
        return no_function(alloc);
    };
    if program.function(f).params.len() > 0 {
        return no_function(alloc);
    }
    let outcome = run(alloc, program, f, &[], fuel)?;
    let response = ran(alloc, program, name, fuel, &outcome);
    let_go(outcome);
    response
}

/// Lets go of an outcome, of a value without recursion on its height.
fn let_go(outcome: Outcome) {
    if let Outcome::Done(value) = outcome {
        release(value);
    }
}
