//! Tables of the calls on clauses, logs, words and circuits, and how fast circuits are built. What the tables must have
//! was worked out apart from the program: `stdout` has it.
//!
//! Each word of the command line is a task and, behind a blank, what it takes: a file of cases, one a line, or a size.
//! The file may be `/dev/stdin`.
//! It is printed as a heading, and below it what the task prints: a line for each case, or what comes out of the size.
//! `args` has the tasks that are tried on the files in `data`; the scripts under `benches/` and `scripts/` give others.
//! The case `laws` calls the functions that only state theorems.
//!
//! | Task | What is done | Module |
//! |---|---|---|
//! | `word FILE` | the calls of `pp_word` on pairs of numbers | `word` |
//! | `gate FILE` | truth tables of the calls of a circuit | `gate` |
//! | `bits FILE` | gates and numbers of the calls of `pp_bits`, `pp_products`, `pp_shifts` | `calls`, `calls::digits` |
//! | `wordgate FILE` | gates and values of the calls of `pp_wordgate` and `pp_wordscale` | `calls`, `calls::words` |
//! | `solver FILE` | clauses, trails, what is learnt, the checker of logs and the solver | `solver` |
//! | `gates SIZE`, `shared SIZE`, `clauses SIZE`, `products SIZE` | circuits that are built to be timed | `timed` |
//!
//! A line of the tables on circuits has the case and its answer behind it, one of `solver` the answer alone.
#![tactic(auto)]

mod calls;
mod case;
mod chain;
mod gate;
mod laws;
mod learning;
mod lists;
mod numbers;
mod operator;
mod orders;
mod ring;
mod solver;
mod three;
mod timed;
mod word;

use crate::numbers::{halves, meaning, number, numbers};
use crate::operator::Operator;
use anyhow::{Context, Result};
use pp_case_line::{CaseLine, NoMemory};
use std::alloc::Global;
use std::{env, fs};

/// What a task does.
#[derive(Clone, Copy)]
enum Task {
    Word,
    Gate,
    Bits,
    WordGate,
    Solver,
    Gates,
    Shared,
    Clauses,
    Products,
}

/// The names of the tasks.
const TASKS: [(&str, Task); 9] = [
    ("word", Task::Word),
    ("gate", Task::Gate),
    ("bits", Task::Bits),
    ("wordgate", Task::WordGate),
    ("solver", Task::Solver),
    ("gates", Task::Gates),
    ("shared", Task::Shared),
    ("clauses", Task::Clauses),
    ("products", Task::Products),
];

/// Adds the answer to a call on these numbers.
fn push_call(
    line: &mut CaseLine,
    alloc: Global,
    task: Task,
    operator: Operator,
    numbers: &[u32],
) -> Result<(), NoMemory> {
    match task {
        Task::Gate => gate::push_answer(line, alloc, operator, numbers),
        Task::Bits => calls::push_on_digits(line, alloc, operator, numbers),
        _ => calls::push_on_words(line, alloc, operator, numbers),
    }
}

/// Adds a call on a circuit, and the answer to it.
fn push_row(line: &mut CaseLine, alloc: Global, task: Task, case: &str) -> Result<(), NoMemory> {
    line.put(case);
    line.put(":");
    let (name, operands) = halves(case, ' ');
    match Operator::named(name) {
        Some(operator) => push_call(line, alloc, task, operator, &numbers(alloc, operands)?),
        None => {
            line.put(" no such call");
            Ok(())
        }
    }
}

/// Adds the answer to a case of a task, or to a size.
fn push_answer(line: &mut CaseLine, alloc: Global, task: Task, case: &str) -> Result<(), NoMemory> {
    match task {
        _ if case == "laws" => {
            laws::state_all();
            line.put(case);
            Ok(())
        }
        Task::Solver => solver::push_answer(line, alloc, case),
        Task::Word => {
            word::push_row(line, case);
            Ok(())
        }
        Task::Gate | Task::Bits | Task::WordGate => push_row(line, alloc, task, case),
        _ => timed::push_answer(line, alloc, task, number(case)),
    }
}

/// Prints the answer to a case of a task, or to a size.
fn print_answer(rt: &HostRuntime, task: Task, case: &str) -> Result<()> {
    let mut line = CaseLine::new(rt.alloc());
    push_answer(&mut line, rt.alloc(), task, case)?;
    println!(rt; "{}", line.end()?)?;
    Ok(())
}

/// Prints a line for each case of a file.
fn print_cases(rt: &HostRuntime, task: Task, path: &str) -> Result<()> {
    let file = fs::read_to_string(rt, path)?;
    for case in file.as_str().lines() {
        print_answer(rt, task, case)?;
    }
    Ok(())
}

/// Does a task.
fn run(rt: &HostRuntime, text: &str) -> Result<()> {
    println!(rt; "# {text}")?;
    let (name, given) = halves(text, ' ');
    let task = meaning(&TASKS, name).context("no such task")?;
    match task {
        Task::Gates | Task::Shared | Task::Clauses | Task::Products => print_answer(
            rt, task, given,
        ),
        _ => print_cases(rt, task, given),
    }
}

fn main(rt: HostRuntime) -> Result<()> {
    for task in env::args(&rt)?.skip(1) {
        run(&rt, task.as_str())?;
    }
    Ok(())
}
