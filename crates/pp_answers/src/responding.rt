//! The response to a task.

ghost use Rattle.std.specs.Prelude.{◌≡◌, ◌≤◌, ◌∷◌, [], All, IfOk, List, ℕ, length, map};
ghost use Rattle.pp_limits.specs.declared.TheConstants.{MOST_SEED, MOST_SOURCES};
ghost use Rattle.pp_answers.specs.Answers as spec;
ghost use Rattle.pp_answers.specs.Answers.{Answers, sources_of};
ghost use Rattle.pp_front.specs.Programs.{IsShort, bytes_of};
ghost use Rattle.pp_made.specs.Made.{made_source as source_from};
ghost use Rattle.pp_modes.specs.Answers.{IsInRange};
ghost use Rattle.pp_modes.specs.Responses.{response_of};
ghost use Rattle.pp_words.specs.Told.{task_told};

use crate::{NoMemory, Response, Status};
use pp_front::{Refusal, accept};
use pp_made::made_source;
use pp_modes::answer;
use pp_words::Task;
use std::alloc::Global;

/// The seed of a task that makes its source.
fn seed_of(task: Task) -> Option<u32>
    ensures { result ≡ spec.seed_of (task_told task.entry) }
{
    match task {
        Task::Make { seed, .. } => Some(seed),
        _ => None,
    }
}

/// The source that is made from a seed, alone.
fn made_sources(alloc: Global, seed: u32) -> Result<Vec<Vec<u8>>, NoMemory>
    requires { seed ≤ MOST_SEED }
    ensures made { IfOk result (λ sources. map bytes_of sources.items ≡ source_from seed ∷ []) }
    ensures short { IfOk result (λ sources. All IsShort sources.items) }
{
    let text = made_source(alloc, seed)?;
    let mut sources = Vec::new(alloc);
    sources.push(Vec::from_slice(alloc, text.as_bytes())?)?;
    Ok(sources)
}

/// What is put for a task on its sources.
fn respond_on(alloc: Global, task: Task, sources: &[Vec<u8>]) -> Result<Response, NoMemory>
    requires range { IsInRange (task_told task) }
    requires few { length sources.now ≤ MOST_SOURCES }
    requires short { All IsShort sources.now }
    ensures { IfOk result (λ r. (fetched : List (List ℕ))
        → sources_of (task_told task.entry) fetched ≡ map bytes_of sources.now
        → Answers (task_told task.entry) fetched (response_of r)) }
{
    match accept(alloc, sources) {
        Ok(accepted) => answer(alloc, task, &accepted.program, &accepted.plan),
        Err(Refusal::Line(line)) => Ok(Response::Refusal(Status::Refused, line)),
        Err(Refusal::Memory) => Err(NoMemory),
    }
}

/// What is put for a task and the bytes of the sources that are fetched for it, at most 16, each of at most 262,144
/// bytes. Where the task makes its source, that is the only one. The only error is want of memory.
pub fn respond(alloc: Global, task: Task, fetched: &[Vec<u8>]) -> Result<Response, NoMemory>
    requires range { IsInRange (task_told task) }
    requires few { length fetched.now ≤ MOST_SOURCES }
    requires short { All IsShort fetched.now }
    ensures { IfOk result (λ r. Answers (task_told task.entry) (map bytes_of fetched.now) (response_of r)) }
{
    match seed_of(task) {
        Some(seed) => {
            let made = made_sources(alloc, seed)?;
            respond_on(alloc, task, &made)
        }
        None => respond_on(alloc, task, fetched),
    }
}
