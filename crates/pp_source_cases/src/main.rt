//! Tries what is read from outside: sources, which are cut into tokens, parsed and typed, shelves and sinks, the words
//! of the command line, and lines that no program of a source has; and measures how fast sources are read. What the
//! answers must be was worked out apart from the program: `stdout` has it.
//!
//! Each word of the command line is a task and, behind a blank, what it takes: a file of cases, one a line, sources, or
//! a size. It is printed as a heading, and below it what the task answers. `args` has the tasks that are tried on the
//! files in `data`; the scripts under `benches/` give those that measure larger sources. What a line of a source stands
//! for is told in `escapes`.
//!
//! | Task | What is done | Module |
//! |---|---|---|
//! | `tokens FILE` | the tokens of the source of each line | `cutting` |
//! | `count_tokens SOURCE` | how many tokens the source has | `cutting` |
//! | `units FILE` | the unit that the source of each line spells | `parsing` |
//! | `cuts SOURCE` | how many pieces of the source are units | `pieces` |
//! | `brackets COUNT` | a name in so many brackets, and so many that nothing closes | `parsing` |
//! | `count_declarations SOURCE` | how many declarations the unit has | `parsing` |
//! | `typing FILE` | what the typing of the sources of each line answers | `typing` |
//! | `parse SOURCE ..`, `type SOURCE ..` | how many units, or functions that are typed | `typing` |
//! | `seam FILE` | shelves and sinks, in memory, on files, and over readers and writers that falter | `seam` |
//! | `words FILE` | the words of the command line | `words` |
//! | `print` | lines on words, files and memory, and sinks where a put fails | `print` |
#![tactic(auto)]

mod adding;
mod case;
mod cutting;
mod escapes;
mod exprs;
mod failing;
mod falter;
mod parsing;
mod pieces;
mod print;
mod reading;
mod seam;
mod typing;
mod units;
mod words;

use adding::push_word;
use case::{lines, words};
use escapes::sources;
use pp_case_line::CaseLine;
use pp_seam::{Sink, StdSink};
use std::alloc::Global;
use std::io::ErrorKind;
use std::{env, fs, io};

/// How many bytes a source of `tokens` has at most whose tokens are spelled out.
const MOST_SPELLED: usize = 1000;

/// The first source.
fn first(sources: &[Vec<u8>]) -> &[u8] {
    match sources {
        [source, ..] => source,
        [] => &[],
    }
}

/// Adds what a task on sources answers. Of a long source of `tokens` only their number is told.
fn push_answer(out: &mut CaseLine, alloc: Global, task: &str, sources: &[Vec<u8>]) {
    let source = first(sources);
    match task {
        "tokens" => cutting::push_cut(out, alloc, source, source.len() > MOST_SPELLED),
        "count_tokens" => cutting::push_cut(out, alloc, source, true),
        "units" => parsing::push_parsed(out, alloc, source, false),
        "count_declarations" => parsing::push_parsed(out, alloc, source, true),
        "cuts" => pieces::push_count(out, alloc, source),
        _ => typing::push_answer(out, alloc, task, sources),
    }
    out.put("\n");
}

/// Adds what a task answers to the sources of each line.
fn push_lines(out: &mut CaseLine, alloc: Global, task: &str, lines: &[&str]) -> io::Result<()> {
    for line in lines {
        push_answer(out, alloc, task, &sources(alloc, line)?);
    }
    Ok(())
}

/// Adds what a task answers to each case.
fn push_cases(out: &mut CaseLine, rt: &HostRuntime, task: &str, cases: &[&str]) -> io::Result<()> {
    match task {
        "seam" => seam::push_answers(out, rt, cases),
        "words" => words::push_answers(out, rt.alloc(), cases),
        _ => push_lines(out, rt.alloc(), task, cases),
    }
}

/// Adds what a task answers to the lines of a file.
fn push_file(out: &mut CaseLine, rt: &HostRuntime, task: &str, path: &str) -> io::Result<()> {
    let file = fs::read_to_string(rt, path)?;
    let cases = lines(rt.alloc(), file.as_str())?;
    push_cases(out, rt, task, &cases)
}

/// The files at these paths.
fn files(rt: &HostRuntime, paths: &[&str]) -> io::Result<Vec<Vec<u8>>> {
    let mut files = Vec::new(rt.alloc());
    for path in paths {
        files.push(fs::read(rt, path)?)?;
    }
    Ok(files)
}

/// Adds what a task answers to the files at these paths, which are its sources.
fn push_files(out: &mut CaseLine, rt: &HostRuntime, task: &str, paths: &str) -> io::Result<()> {
    let paths = words(rt.alloc(), paths)?;
    push_answer(out, rt.alloc(), task, &files(rt, &paths)?);
    Ok(())
}

/// Adds a task, and what it answers.
fn push_task(out: &mut CaseLine, rt: &HostRuntime, task: &str) -> io::Result<()> {
    push_word(out, "# ", task);
    out.put("\n");
    let (name, given) = task.split_once(' ').unwrap_or((task, ""));
    match name {
        "brackets" => parsing::push_brackets(out, rt.alloc(), given),
        "print" => print::push_answers(out, rt.alloc()),
        "tokens" | "units" | "typing" | "seam" | "words" => push_file(out, rt, name, given),
        "count_tokens" | "count_declarations" | "cuts" => push_files(out, rt, name, given),
        "parse" | "type" => push_files(out, rt, name, given),
        _ => Err(io::Error::from(ErrorKind::InvalidInput)),
    }
}

/// Does a task, and puts what it answers on standard output.
fn run(rt: &HostRuntime, task: &str) -> io::Result<()> {
    let mut out = CaseLine::new(rt.alloc());
    push_task(&mut out, rt, task)?;
    put(rt, out.end()?.as_str())
}

/// Puts a text on standard output, behind a put of nothing.
fn put(rt: &impl Print, text: &str) -> io::Result<()> {
    let mut out = StdSink::new(io::writer(rt));
    if out.put("".as_bytes()).is_ok() && out.put(text.as_bytes()).is_ok() {
        return Ok(());
    }
    Err(io::Error::from(ErrorKind::BrokenPipe))
}

fn main(rt: HostRuntime) -> io::Result<()> {
    for task in env::args(&rt)?.skip(1) {
        run(&rt, task.as_str())?;
    }
    Ok(())
}
