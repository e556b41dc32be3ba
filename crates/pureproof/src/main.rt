//! Checks the contracts in sources of Pure Scala: verifies functions, lists their checks, or runs one. It also makes a
//! source, and verifies that.
//!
//! `pureproof` in `top` is all that the program does, over a shelf of sources and two sinks; `main` gives it the files
//! and the standard streams. `fetching` fetches the sources, `responding` says what is due, `show` puts it. In
//! `specs/`, `Fetched` says what shelves tell, `Dues` what is due and why, `Shown` what is left of it where a put
//! fails, and `Ends` when the program ends with which status, and what its lines mean. What is answered to which words
//! and sources stands in `pp_answers`.
#![tactic(auto)]

ghost use Rattle.std.specs.Prelude.{◌≡◌, IfOk, map, string_bytes};
ghost use Rattle.pp_words.specs.Told.{texts};

mod fetching;
mod responding;
mod show;
mod top;

use pp_answers::{NoMemory, Response, Status};
use pp_print::{memory_line, words_line};
use pp_seam::{FileShelf, StdSink};
use show::put_refusal;
use std::alloc::Global;
use std::io::ErrorKind;
use std::process::ExitCode;
use std::rt::Env;
use std::{env, io};
pub use top::pureproof;

// The words after the program's name, where they are text.
fn words_of(rt: &(impl Env + AllocGlobal)) -> io::Result<Vec<String>> {
    let mut words = Vec::new(rt.alloc());
    for word in env::args(rt)?.skip(1) {
        words.push(word)?;
    }
    Ok(words)
}

fn slices(alloc: Global, words: &[String]) -> Result<Vec<&str>, NoMemory>
    ensures { IfOk result (λ slices. texts slices.items ≡ map string_bytes words.now) }
{
    let mut slices = Vec::new(alloc);
    for word in words {
        slices.push(word.as_str())?;
    }
    Ok(slices)
}

fn started(rt: &HostRuntime) -> Status {
    let mut err = StdSink::new(rt.stderr());
    let words = match words_of(rt) {
        Ok(words) => words,
        Err(error) if error.kind() == ErrorKind::OutOfMemory => {
            return put_refusal(Status::Memory, memory_line(), &mut err);
        }
        Err(_) => return put_refusal(Status::Words, words_line(), &mut err),
    };
    let alloc = rt.alloc();
    let Ok(words) = slices(alloc, &words) else {
        return put_refusal(Status::Memory, memory_line(), &mut err);
    };
    let mut shelf = FileShelf::new(alloc, rt);
    let mut out = StdSink::new(rt.stdout());
    pureproof(alloc, &words, &mut shelf, &mut out, &mut err)
}

fn main(rt: HostRuntime) -> ExitCode {
    ExitCode::from(started(&rt).code())
}

#[cfg(test)]
mod tests;
