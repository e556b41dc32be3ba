//! What is answered to a case.

ghost use Rattle.std.specs.Prelude.{◌↔◌, ◌≤◌, All, IsTrue, length};
ghost use Rattle.pp_front.specs.Programs.{IsShort};
ghost use Rattle.pp_limits.specs.declared.TheConstants.{MOST_SOURCES};
ghost use Rattle.pp_modes.specs.Answers.{IsInRange};
ghost use Rattle.pp_words.specs.Told.{task_told};

use crate::evaluators::agree;
use crate::sources::sources;
use pp_answers::{Response, respond};
use pp_case_line::{CaseLine, NoMemory};
use pp_text::MOST_BYTES;
use pp_words::{Task, read};
use std::alloc::Global;
use std::iter::repeat_n;

/// The words, with a path for each source.
fn words(alloc: Global, text: &str, sources: usize) -> Result<Vec<&str>, NoMemory> {
    let paths = repeat_n("a.scala", sources);
    text.split_whitespace().chain(paths).collect(alloc)
}

fn are_short(sources: &[Vec<u8>]) -> bool
    ensures { IsTrue result ↔ All IsShort sources.now }
{
    sources.iter().all(|source| source.len() <= MOST_BYTES)
}

/// Adds a line, with its line feed shown.
fn push_line(out: &mut CaseLine, line: &str) {
    match line.strip_suffix("\n") {
        Some(line) => {
            out.put(line);
            out.put("\\n")
        }
        None => out.put(line),
    }
}

/// Adds the exit status, and the lines.
fn push_response(out: &mut CaseLine, response: &Response) {
    match response {
        Response::Report(status, lines) => {
            out.put(status.code());
            out.put(" ");
            for line in lines {
                push_line(out, line.as_str());
            }
        }
        Response::Refusal(status, line) => {
            out.put(status.code());
            out.put(" ");
            push_line(out, line.as_str())
        }
    }
}

/// Adds what is answered to a task on these sources, where both evaluators agree.
fn push_agreed(
    out: &mut CaseLine,
    alloc: Global,
    task: Task,
    sources: &[Vec<u8>],
) -> Result<(), NoMemory>
    requires range { IsInRange (task_told task) }
    requires few { length sources.now ≤ MOST_SOURCES }
    requires short { All IsShort sources.now }
{
    if agree(alloc, &task, sources)? {
        push_response(out, &respond(alloc, task, sources)?);
    } else {
        out.put("the evaluators differ");
    }
    Ok(())
}

/// Adds what is answered to a task on these sources.
fn push_told(
    out: &mut CaseLine,
    alloc: Global,
    task: Task,
    sources: &[Vec<u8>],
) -> Result<(), NoMemory>
    requires { IsInRange (task_told task) }
{
    if sources.len() > 16 || !are_short(sources) {
        out.put("no case");
        return Ok(());
    }
    push_agreed(out, alloc, task, sources)
}

/// Adds what is answered to words and sources.
#[tactic(auto, using(crate::proofs::Ranges::line_in_range))]
fn push_asked(
    out: &mut CaseLine,
    alloc: Global,
    words: &[&str],
    sources: &[Vec<u8>],
) -> Result<(), NoMemory> {
    match read(alloc, words) {
        Ok(line) => push_told(out, alloc, line.task, sources),
        Err(_) => {
            out.put("no words");
            Ok(())
        }
    }
}

/// Adds what is answered to the words of a text, and sources.
fn push_words(
    out: &mut CaseLine,
    alloc: Global,
    text: &str,
    sources: &[Vec<u8>],
) -> Result<(), NoMemory> {
    push_asked(out, alloc, &words(alloc, text, sources.len())?, sources)
}

/// Adds what is answered to the case of a line.
pub fn push_answer(out: &mut CaseLine, alloc: Global, case: &str) -> Result<(), NoMemory> {
    match case.split_once('|') {
        Some((text, parts)) => push_words(out, alloc, text, &sources(alloc, parts)?),
        None => push_words(out, alloc, case, &[]),
    }
}
