//! Runs on small arguments.

ghost use Rattle.std.specs.Prelude.{◌<◌, ◌≤◌, ℕ, All, IfOk, IfSome, OnOk, length};
ghost use Rattle.pp_limits.specs.declared.TheConstants.{DEPTH, ROUNDS};
ghost use Rattle.pp_prog.specs.declared.program.Program.{Program as AnyProgram};
ghost use Rattle.pp_small.specs.Failing.{IsFailure};

use crate::NoMemory;
use crate::candidates::Candidates;
use crate::failing::own_failure;
use crate::failures::{Failure, Failures};
use crate::lists::copies_of;
use crate::tested::{are_arguments, are_low};
use pp_list::Items;
use pp_prog::{CheckId, FunctionId, Param, Program, Sorts, Value, Values};
use pp_stack::run_within;
use std::alloc::Global;

/// How many runs a function is given: of the claims that were measured all but one that runs on small arguments refute
/// took at most 186.
const MOST_RUNS: u32 = 500;

/// How many turns of the machine the runs of a function take at most: some milliseconds, where each of those runs took
/// some hundred turns.
const MOST_TURNS: u64 = 200_000;

/// Up to which cost lists of arguments are tried, if the runs last: more than five of the dearest numbers cost.
const COSTS: usize = 40;

/// What is asked: which checks of the function its runs fail with this fuel, on arguments of at most this height.
#[derive(Clone, Copy)]
struct Question {
    function: FunctionId,
    fuel: u32,
    depth: u32,
}

/// What is left of the runs and of their turns.
#[derive(Drop)]
struct Budget {
    runs: u32,
    turns: u64,
}

impl Budget {
    fn is_spent(&self) -> bool {
        self.runs == 0 || self.turns == 0
    }
}

/// For checks of the function arguments of height at most `depth` whose run with this fuel fails the check, one list of
/// them for a check, where runs on small arguments find some: at most `MOST_RUNS`, which take at most `MOST_TURNS`
/// together. That there are none for a check says nothing. The only error is want of memory.
pub fn small_failures(
    alloc: Global,
    program: &Program,
    function: FunctionId,
    fuel: u32,
    depth: u32,
) -> Result<Failures, NoMemory>
    requires function { function.0 < length program.now.functions }
    requires fuel { fuel ≤ ROUNDS.most }
    requires depth { (1 ≤ depth) × (depth ≤ DEPTH.most) }
    ensures { IfOk result (All (IsFailure program.now function.0 fuel depth)) }
{
    let question = Question {
        function,
        fuel,
        depth,
    };
    let sorts = sorts_of(alloc, program.function(function).params.as_slice())?;
    let types = program.types();
    let candidates = Candidates::new(
        alloc,
        types.datatypes.len(),
        types.ctors.as_slice(),
        sorts.as_slice(),
        depth,
    )?;
    failures_among(alloc, program, question, candidates)
}

/// The sorts of the parameters. The only error is want of memory.
fn sorts_of(alloc: Global, params: &[Param]) -> Result<Sorts, NoMemory> {
    let mut sorts = Items::new(alloc);
    for param in params {
        sorts.push(param.sort)?;
    }
    Ok(sorts)
}

/// The first candidates that fail each check, as far as they come within the budget.
fn failures_among(
    alloc: Global,
    program: &Program,
    question: Question,
    mut candidates: Candidates,
) -> Result<Failures, NoMemory>
    requires function { question.function.0 < length program.now.functions }
    requires fuel { question.fuel ≤ ROUNDS.most }
    ensures { IfOk result (All (IsFailure program.now question.function.0 question.fuel question.depth)) }
{
    let mut failures = Items::new(alloc);
    let mut budget = Budget {
        runs: MOST_RUNS,
        turns: MOST_TURNS,
    };
    for _ in 0..COSTS {
        candidates.grow(alloc)?;
        add_failures(
            alloc,
            program,
            question,
            candidates.last(),
            &mut budget,
            &mut failures,
        )?;
        if budget.is_spent() {
            return Ok(failures);
        }
    }
    Ok(failures)
}

/// Adds those of the lists that fail a check which none failed before, as far as they come within the budget.
fn add_failures(
    alloc: Global,
    program: &Program,
    question: Question,
    lists: &[Values],
    budget: &mut Budget,
    failures: &mut Failures,
) -> Result<(), NoMemory>
    requires function { question.function.0 < length program.now.functions }
    requires fuel { question.fuel ≤ ROUNDS.most }
    requires failures { All (IsFailure program.now question.function.0 question.fuel question.depth) failures.old }
    ensures { OnOk result (All (IsFailure program.now question.function.0 question.fuel question.depth) failures.new) }
{
    for args in lists {
        if budget.is_spent() {
            break;
        }
        let args = args.as_slice();
        let failed = failed_check(alloc, program, question, args, budget)?;
        add_failure(alloc, failed, args, failures)?;
    }
    Ok(())
}

/// Adds the arguments for the check that they fail, if they do, and unless others are there that fail it.
fn add_failure(
    alloc: Global,
    failed: Option<CheckId>,
    args: &[Value],
    failures: &mut Failures,
) -> Result<(), NoMemory>
    ensures { OnOk result ((p : AnyProgram) (i n d : ℕ) → All (IsFailure p i n d) failures.old
        → IfSome failed (λ c. IsFailure p i n d (record { check = c; args = args.now }))
        → All (IsFailure p i n d) failures.new) }
{
    match failed {
        Some(check) if !is_failed(failures.as_slice(), check) => {
            let args = copies_of(alloc, args)?;
            failures.push(Failure { check, args })?;
            Ok(())
        }
        _ => Ok(()),
    }
}

/// Whether a failure of the check is there.
fn is_failed(failures: &[Failure], check: CheckId) -> bool {
    failures.iter().any(|failure| failure.check == check)
}

/// The check of the function that its run on the arguments fails, if they are low enough, have the sorts of the
/// parameters, and it comes within the budget.
fn failed_check(
    alloc: Global,
    program: &Program,
    question: Question,
    args: &[Value],
    budget: &mut Budget,
) -> Result<Option<CheckId>, NoMemory>
    requires function { question.function.0 < length program.now.functions }
    requires fuel { question.fuel ≤ ROUNDS.most }
    ensures { IfOk result (λ found. IfSome found (λ c. IsFailure program.now question.function.0 question.fuel
        question.depth (record { check = c; args = args.now }))) }
{
    let Question {
        function,
        fuel,
        depth,
    } = question;
    if !are_low(args, depth) {
        return Ok(None);
    }
    if !are_arguments(program, function, args) {
        return Ok(None);
    }
    budget.runs = budget.runs.saturating_sub(1);
    match run_within(alloc, program, function, args, fuel, &mut budget.turns)? {
        Some(outcome) => Ok(own_failure(program, function, &outcome)),
        None => Ok(None),
    }
}
