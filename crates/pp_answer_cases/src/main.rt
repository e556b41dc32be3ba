//! Tries what the program answers to words and sources, a case a line of standard input, and prints an answer a line.
//! What the answers must be was worked out apart from the program: `stdout` has it.
//!
//! A case is the words of the command line without the paths, then `|`, then the sources; without `|` there are none.
//! In the sources `\n`, `\r` and `\t` stand for what they stand for in Rust, `\x` for the byte 255, and `\s` stands
//! between sources. The answer is the exit status and then what is put, where `\n` stands for a line feed. It is
//! `no case` where a source is too long or there are more than 16, and `no words` where the words are refused before
//! any source is read. A run that the plain evaluator can make is made by it and by the machine, and the answer is `the
//! evaluators differ` where their outcomes do.
#![tactic(auto)]

mod answers;
mod evaluators;
mod sources;

use pp_case_line::{CaseLine, NoMemory};
use std::alloc::Global;
use std::io;

/// The answers to the cases, one a line.
fn answers_to(alloc: Global, cases: &[&str]) -> Result<String, NoMemory> {
    let mut out = CaseLine::new(alloc);
    for case in cases {
        answers::push_answer(&mut out, alloc, case)?;
        out.put("\n");
    }
    out.end()
}

/// The answers to the lines of a text.
fn answers_to_lines(alloc: Global, text: &str) -> Result<String, NoMemory> {
    let cases: Vec<&str> = text.lines().collect(alloc)?;
    answers_to(alloc, &cases)
}

fn main(rt: HostRuntime) -> io::Result<()> {
    let input = io::read_to_string(rt.alloc(), rt.reader())?;
    print!(rt; "{}", answers_to_lines(rt.alloc(), input.as_str())?)
}
