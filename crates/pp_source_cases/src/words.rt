//! Lines of words, one a line of the file, and what each asks. Words stand apart by blanks; `''` is the empty word. The
//! answer is `refused`, or the task with its numbers, and the paths.

use crate::adding::{push_number, push_word};
use crate::case::words;
use pp_case_line::CaseLine;
use pp_words::{Numbers, Order, Task, WordsFault, read};
use std::alloc::Global;
use std::io;

/// Adds what the words of each line ask.
pub fn push_answers(out: &mut CaseLine, alloc: Global, lines: &[&str]) -> io::Result<()> {
    for line in lines {
        push_answer(out, alloc, &words(alloc, line)?);
        out.put("\n");
    }
    Ok(())
}

/// Adds what words ask.
fn push_answer(out: &mut CaseLine, alloc: Global, words: &[&str]) {
    match read(alloc, words) {
        Ok(line) => push_asked(out, line.task, &line.files),
        Err(WordsFault::Refused) => out.put("refused"),
        Err(WordsFault::Memory) => out.put("out of memory"),
    }
}

/// Adds a task, and paths.
fn push_asked(out: &mut CaseLine, task: Task, files: &[&str]) {
    push_task(out, task);
    for file in files {
        push_word(out, " ", if file.is_empty() { "''" } else { file });
    }
}

fn push_task(out: &mut CaseLine, task: Task) {
    match task {
        Task::Verify(order, numbers) => {
            push_word(out, "verify ", order_word(order));
            push_numbers(out, " ", numbers)
        }
        Task::List { rounds, depth } => {
            push_number(out, "list ", rounds);
            push_number(out, " ", depth)
        }
        Task::Run { function, fuel } => {
            push_word(out, "run (", function);
            push_number(out, ") ", fuel)
        }
        Task::Make { seed, numbers } => {
            push_number(out, "make ", seed);
            push_numbers(out, " ", numbers)
        }
    }
}

fn order_word(order: Order) -> &'static str {
    match order {
        Order::One => "one",
        Order::Turns => "turns",
        Order::Back => "back",
    }
}

fn push_numbers(out: &mut CaseLine, before: &str, numbers: Numbers) {
    push_number(out, before, numbers.rounds);
    push_number(out, " ", numbers.depth);
    push_number(out, " ", numbers.lemmas);
    push_number(out, " ", numbers.gates);
}
