//! What is due.

ghost use Rattle.std.specs.Prelude.{◌≡◌, ◌≤◌, IfOk, List, Some, ℕ, length};
ghost use Rattle.pp_limits.specs.declared.TheConstants.{MOST_SOURCES};
ghost use Rattle.pp_modes.specs.Answers.{IsInRange};
ghost use Rattle.pp_modes.specs.Responses.{refusal, response_of};
ghost use Rattle.pp_print.specs.Refusals.{read_fault_text, too_long_text, words_text};
ghost use Rattle.pp_words.specs.Line.{line_of};
ghost use Rattle.pp_words.specs.Told.{task_told, texts};
ghost use Rattle.pureproof.specs.Dues.{IsDue};
ghost use Rattle.pureproof.specs.Ends.{Fetched, FetchesFiles};
ghost use Rattle.pureproof.specs.Fetched.{told};

use crate::fetching::fetch_all;
use crate::{NoMemory, Response, Status};
use pp_answers::respond;
use pp_print::{read_fault_line, too_long_line, words_line};
use pp_seam::{FetchFault, Shelf};
use pp_words::{Task, WordsFault, read};
use std::alloc::Global;

fn no_line(alloc: Global) -> Result<Response, NoMemory>
    ensures { IfOk result (λ r. response_of r ≡ refusal Status.Words words_text) }
{
    Ok(Response::Refusal(Status::Words, String::from_str(alloc, words_line())?))
}

fn unread(alloc: Global, path: &str) -> Result<Response, NoMemory>
    ensures { IfOk result (λ r. response_of r ≡ refusal Status.ReadFault (read_fault_text path.now)) }
{
    Ok(Response::Refusal(Status::ReadFault, read_fault_line(alloc, path)?))
}

fn too_long(alloc: Global, source: u32) -> Result<Response, NoMemory>
    ensures { IfOk result (λ r. response_of r ≡ refusal Status.Refused (too_long_text source)) }
{
    Ok(Response::Refusal(Status::Refused, too_long_line(alloc, source)?))
}

/// What is due for a task and its files.
fn due_of_files<S: Shelf>(
    alloc: Global,
    task: Task,
    files: &[&str],
    shelf: &mut S,
) -> Result<Response, NoMemory>
    requires range { IsInRange (task_told task) }
    requires few { length files.now ≤ MOST_SOURCES }
    ensures due { IfOk result (λ r. (words : List (List ℕ))
        → line_of words ≡ Some (record { task = task_told task.entry; files = texts files.now })
        → IsDue words (told S.held S.asked S.failed S.seen shelf.old shelf.new) (response_of r)) }
    ensures fetched { FetchesFiles (record { task = task_told task.entry; files = texts files.now })
        (told S.held S.asked S.failed S.seen shelf.old shelf.new) }
    ensures kept { (p : List ℕ) → S.held shelf.new p ≡ S.held shelf.old p }
{
    let mut sources = Vec::new(alloc);
    match fetch_all(alloc, files, shelf, &mut sources) {
        Ok(()) => respond(alloc, task, &sources),
        Err(FetchFault::Failed) => unread(alloc, files[sources.len()]),
        Err(FetchFault::TooLong) => too_long(alloc, sources.len() as u32 + 1),
        Err(FetchFault::Memory) => Err(NoMemory),
    }
}

/// What is due for these words.
pub(crate) fn due<'a, S: Shelf>(
    alloc: Global,
    words: &'a [&'a str],
    shelf: &mut S,
) -> Result<Response, NoMemory>
    ensures due { IfOk result (λ r.
        IsDue (texts words.entry.now) (told S.held S.asked S.failed S.seen shelf.old shelf.new) (response_of r)) }
    ensures fetched { Fetched (texts words.entry.now) (told S.held S.asked S.failed S.seen shelf.old shelf.new) }
    ensures kept { (p : List ℕ) → S.held shelf.new p ≡ S.held shelf.old p }
{
    match read(alloc, words) {
        Ok(line) => due_of_files(alloc, line.task, &line.files, shelf),
        Err(WordsFault::Refused) => no_line(alloc),
        Err(WordsFault::Memory) => Err(NoMemory),
    }
}
