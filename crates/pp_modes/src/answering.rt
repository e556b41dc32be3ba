//! What is answered to a task.

ghost use Rattle.std.specs.Prelude.{◌≡◌, IfOk};
ghost use Rattle.pp_checks.specs.Plan.{IsPlanOf};
ghost use Rattle.pp_modes.specs.Answers.{AnswersTask, IsInRange};
ghost use Rattle.pp_modes.specs.Responses.{response_of};
ghost use Rattle.pp_modes.specs.Verdicts as spec;
ghost use Rattle.pp_words.specs.Told.{task_told};

use crate::list::list_lines;
use crate::make::answer_make;
use crate::run::answer_run;
use crate::verify::answer_verify;
use crate::{NoMemory, Response, Status};
use pp_checks::Plan;
use pp_induct::Limits;
use pp_prog::Program;
use pp_words::{Numbers, Task};
use std::alloc::Global;

/// The limits that the numbers of a task name.
fn limits_of(numbers: Numbers) -> Limits
    ensures { result ≡ spec.limits_of numbers }
{
    Limits {
        rounds: numbers.rounds,
        depth: numbers.depth,
        lemmas: numbers.lemmas as u64,
        gates: numbers.gates as u64,
    }
}

/// What is answered to a task on a program and its plan. The only error is want of memory.
pub fn answer(
    alloc: Global,
    task: Task,
    program: &Program,
    plan: &Plan,
) -> Result<Response, NoMemory>
    requires plan { IsPlanOf plan.now program.now }
    requires range { IsInRange (task_told task) }
    ensures { IfOk result (λ r. AnswersTask program.now (task_told task.entry) (response_of r)) }
{
    match task {
        Task::Verify(order, numbers) => {
            answer_verify(alloc, program, plan, order, limits_of(numbers))
        }
        Task::List { rounds, depth } => Ok(Response::Report(
            Status::AllValid,
            list_lines(alloc, program, plan, rounds, depth)?,
        )),
        Task::Run { function, fuel } => answer_run(alloc, program, function, fuel),
        Task::Make { numbers, .. } => answer_make(alloc, program, plan, limits_of(numbers)),
    }
}
