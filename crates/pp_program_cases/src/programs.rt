//! The programs of sources, and what the tasks tell of them.

ghost use Rattle.std.specs.Prelude.{◌↔◌, All, IfOk, IsTrue};
ghost use Rattle.pp_checks.specs.Plan.{IsPlanOf};
ghost use Rattle.pp_front.specs.Programs.{IsShort};

use crate::{circuits, clauses, coverage, guess_runs, guesses, plans, rounds, turns};
use anyhow::{Error, Result, anyhow, bail, ensure};
use pp_case_line::CaseLine;
use pp_front::{Accepted, Refusal, accept};
use pp_text::MOST_BYTES;
use std::alloc::Global;

/// What ends a program of a file.
const END: &str = "\nend\n";

/// Does a task on each program of a file, whose first line it takes.
pub fn tell_each(alloc: Global, task: &str, file: &str, out: &mut CaseLine) -> Result<()> {
    let programs: Vec<&str> = file.split(END).collect(alloc)?;
    for program in &programs {
        tell_one(alloc, task, program, out)?;
    }
    Ok(())
}

/// Does a task on a program of a file. Behind the last one there is an empty text.
fn tell_one(alloc: Global, task: &str, program: &str, out: &mut CaseLine) -> Result<()> {
    match program.split_once('\n') {
        Some((words, source)) => tell_source(alloc, task, words, source, out),
        None => Ok(()),
    }
}

/// Does a task, which takes these words, on the program of a source.
pub fn tell_source(
    alloc: Global,
    task: &str,
    words: &str,
    source: &str,
    out: &mut CaseLine,
) -> Result<()> {
    tell(alloc, task, words, &accepted(alloc, source)?, out)
}

/// Does a task, which takes these words, on a program.
fn tell(
    alloc: Global,
    task: &str,
    words: &str,
    accepted: &Accepted,
    out: &mut CaseLine,
) -> Result<()>
    requires { IsPlanOf accepted.now.plan accepted.now.program }
{
    match task {
        "rounds" => rounds::compare_all(alloc, words, accepted, out),
        "plans" => Ok(plans::tell_plan(words, accepted, out)),
        "guess_runs" => guess_runs::tell_proved(alloc, words, accepted, out),
        "turns" => turns::tell_parts(alloc, words, accepted, out),
        "circuits" => circuits::tell_sizes(alloc, words, accepted, out),
        "guesses" => guesses::tell_proofs(alloc, words, accepted, out),
        "clauses" => clauses::tell_clauses(alloc, words, accepted, out),
        "coverage" => coverage::tell_coverage(alloc, words, &accepted.program.types, out),
        _ => bail!("no such task"),
    }
}

fn are_short(sources: &[Vec<u8>]) -> bool
    ensures { IsTrue result ↔ All IsShort sources.now }
{
    sources.iter().all(|source| source.len() <= MOST_BYTES)
}

/// The program of a source, which must be accepted.
fn accepted(alloc: Global, source: &str) -> Result<Accepted>
    ensures { IfOk result (λ accepted. IsPlanOf accepted.plan accepted.program) }
{
    let sources = vec![in alloc; Vec::from_slice(alloc, source.as_bytes())?]?;
    ensure!(sources.len() <= 16 && are_short(&sources), "too long");
    accept(alloc, &sources).map_err(refused)
}

fn refused(refusal: Refusal) -> Error {
    match refusal {
        Refusal::Line(line) => anyhow!("{line}"),
        Refusal::Memory => anyhow!("out of memory"),
    }
}
