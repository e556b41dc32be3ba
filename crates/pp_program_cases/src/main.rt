//! Tries what becomes of whole programs, and measures how fast it is: rounds beside the evaluator, plans, circuits of
//! runs, proofs, and whether matches are covered. What is to be printed was worked out apart from the program: `stdout`
//! has it.
//!
//! Each word of the command line is a task with what it takes. It is printed as a heading, and below it what the task
//! tells of the program of a source, or of each program of a file. There a program is a line, in which it has a name or
//! numbers, then the lines of its one source, and a line `end`. `args` has the tasks that are tried on the files in
//! `data`; the scripts under `benches/` give those that measure larger sizes.
//!
//! | Task | What is told | Module |
//! |---|---|---|
//! | `rounds FILE` | how the circuits of rounds compare with the runs | `rounds` |
//! | `plans FILE` | what the plans of the programs say | `plans` |
//! | `guess_runs FILE` | whether checks are proved in a round | `guess_runs` |
//! | `turns FILE` | where checks stand after their turns | `turns` |
//! | `circuits SOURCE ROUND DEPTH TIMES` | how large the circuits of runs are | `circuits` |
//! | `guesses SOURCE ROUNDS LEMMAS` | what the proofs of checks take | `guesses` |
//! | `clauses SOURCE CHECK ROUND` | the clauses of a proof | `clauses` |
//! | `coverage SOURCE CASE SIZE` | whether a large match is covered | `coverage` |
#![tactic(auto)]

mod circuits;
mod clauses;
mod coverage;
mod formula;
mod guess_runs;
mod guesses;
mod plans;
mod programs;
mod rounds;
mod steps;
mod turns;

use anyhow::Result;
use pp_bounded_samples::words::word;
use pp_case_line::CaseLine;
use programs::{tell_each, tell_source};
use std::alloc::Global;
use std::{env, fs};

/// Does a task on the text of its file, which is one source where the task takes more than the file.
fn tell(alloc: Global, task: &str, text: &str, out: &mut CaseLine) -> Result<()> {
    let name = word(task, 0);
    if word(task, 2).is_empty() {
        tell_each(alloc, name, text, out)
    } else {
        tell_source(alloc, name, task, text, out)
    }
}

/// Does a task, and prints what it tells, also where it fails.
fn run(rt: &HostRuntime, task: &str) -> Result<()> {
    let file = fs::read_to_string(rt, word(task, 1))?;
    let mut out = CaseLine::new(rt.alloc());
    let told = tell(rt.alloc(), task, file.as_str(), &mut out);
    print!(rt; "# {task}\n{}", out.end()?)?;
    told
}

fn main(rt: HostRuntime) -> Result<()> {
    for task in env::args(&rt)?.skip(1) {
        run(&rt, task.as_str())?;
    }
    Ok(())
}
