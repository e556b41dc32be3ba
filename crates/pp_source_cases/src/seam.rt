//! Shelves and sinks, in memory, on files, and over readers and writers that falter: a case a line of the file, an
//! answer a line.
//!
//! - `add PATH BYTES` and `fail NUMBER` prepare the shelves in memory, `room NUMBER` and `cut NUMBER AFTER` the sink in
//!   memory; `fetch PATH LIMIT` and `put PIECE` then ask them, where `''` is no piece.
//! - `file PATH LIMIT` fetches a file.
//! - `read INTERRUPTED LEFT STEP END LIMIT` reads within the limit from a reader that is interrupted so often, has so
//!   many bytes left, gives so many at a time, and at their end `fails` or `ends`.
//! - `write INTERRUPTED STEP INTERRUPTED END` puts `hello` on a writer that is interrupted so often, takes so many
//!   bytes at a time, is interrupted so often when it is flushed, and then `fails` or `ends`.

use crate::adding::{push_size, push_word};
use crate::case::{number, small, word};
use crate::falter::{Drip, Slow};
use pp_case_line::CaseLine;
use pp_seam::{
    Bytes, FetchFault, FileShelf, ReadFault, Shelf, Shelves, Sink, StdSink, read_within,
};
use std::alloc::Global;
use std::io;

/// Adds the answer to each case, asked of shelves and of a sink that are empty at first.
pub fn push_answers(out: &mut CaseLine, rt: &HostRuntime, cases: &[&str]) -> io::Result<()> {
    let mut sink = Bytes::with_room(rt.alloc(), 0)?;
    let mut shelves = Shelves::new(rt.alloc());
    let mut files = FileShelf::new(rt.alloc(), rt);
    for case in cases {
        push_answer(out, &mut sink, &mut shelves, &mut files, case);
        out.put("\n");
    }
    Ok(())
}

/// Adds the answer to a case.
fn push_answer(
    out: &mut CaseLine,
    sink: &mut Bytes,
    shelves: &mut Shelves,
    files: &mut FileShelf<&HostRuntime>,
    case: &str,
) {
    match word(case, 0) {
        "add" | "fail" | "fetch" => push_shelves(out, files.alloc, shelves, case),
        "room" | "cut" | "put" => push_sink(out, files.alloc, sink, case),
        "file" => push_file(out, files, case),
        "read" => push_read(out, files.alloc, case),
        _ => push_write(out, case),
    }
}

/// Adds what the shelves in memory answer.
fn push_shelves(out: &mut CaseLine, alloc: Global, shelves: &mut Shelves, case: &str) {
    let stocked = match word(case, 0) {
        "add" => shelves.add(word(case, 1), word(case, 2).as_bytes()),
        "fail" => shelves.fail_at(small(case, 1)),
        _ => return push_fetched(out, alloc, shelves, case),
    };
    push_done(out, "stocked", stocked.is_ok());
}

/// Adds whether something is done.
fn push_done(out: &mut CaseLine, word: &str, done: bool) {
    out.put(if done { word } else { "out of memory" });
}

/// Adds what a shelf gives.
fn push_fetched(out: &mut CaseLine, alloc: Global, shelf: &mut impl Shelf, case: &str) {
    match shelf.fetch(alloc, word(case, 1), number(case, 2)) {
        Ok(bytes) => push_bytes(out, "gives ", &bytes),
        Err(FetchFault::Failed) => out.put("failed"),
        Err(FetchFault::TooLong) => out.put("too long"),
        Err(FetchFault::Memory) => out.put("out of memory"),
    }
}

/// Adds bytes behind words, where they are text.
fn push_bytes(out: &mut CaseLine, words: &str, bytes: &[u8]) {
    push_word(out, words, str::from_utf8(bytes).unwrap_or("no text"));
}

/// Adds what the sink in memory answers.
fn push_sink(out: &mut CaseLine, alloc: Global, sink: &mut Bytes, case: &str) {
    match word(case, 0) {
        "room" => push_done(out, "prepared", makes_room(alloc, sink, number(case, 1))),
        "cut" => {
            sink.fail_at(small(case, 1), number(case, 2));
            out.put("prepared")
        }
        _ => {
            out.put(sink.put(word(case, 1).as_bytes()).is_ok());
            push_bytes(out, ", has ", sink.taken())
        }
    }
}

/// Makes a new sink with this room, where there is memory for it.
fn makes_room(alloc: Global, sink: &mut Bytes, room: usize) -> bool {
    match Bytes::with_room(alloc, room) {
        Ok(empty) => {
            *sink = empty;
            true
        }
        Err(_) => false,
    }
}

/// Adds what the shelf of files gives, what it kept of a file that is too long, and the paths that failed.
fn push_file(out: &mut CaseLine, files: &mut FileShelf<&HostRuntime>, case: &str) {
    push_fetched(out, files.alloc, files, case);
    push_bytes(out, ", kept ", &files.overlong);
    out.put(", failed");
    for path in &files.failed {
        push_word(out, " ", path.as_str());
    }
}

/// The reader of a case.
fn drip(case: &str) -> Drip {
    Drip {
        interrupted: small(case, 1),
        left: number(case, 2),
        step: number(case, 3),
        fails: matches!(word(case, 4), "fails"),
    }
}

/// Adds how many bytes are read, and how many are left.
fn push_read(out: &mut CaseLine, alloc: Global, case: &str) {
    let mut drip = drip(case);
    match read_within(alloc, &mut drip, number(case, 5)) {
        Ok(bytes) => {
            push_size(out, "", bytes.len());
            out.put(" bytes")
        }
        Err(ReadFault::TooLong(bytes)) => push_size(out, "too long after ", bytes.len()),
        Err(_) => return out.put("failed"),
    }
    push_size(out, ", ", drip.left);
    out.put(" left");
}

/// The writer of a case.
fn slow(case: &str) -> Slow {
    Slow {
        interrupted: small(case, 1),
        step: number(case, 2),
        flush_interrupted: small(case, 3),
        flushes: matches!(word(case, 4), "ends"),
        taken: 0,
    }
}

/// Adds whether a put of nothing and one of `hello` went well, and what the sink counted.
fn push_write(out: &mut CaseLine, case: &str) {
    let mut sink = StdSink::new(slow(case));
    out.put(sink.put("".as_bytes()).is_ok());
    out.put(" ");
    out.put(sink.put("hello".as_bytes()).is_ok());
    push_counts(out, sink.faults, sink.writer.taken);
}

fn push_counts(out: &mut CaseLine, faults: u64, taken: usize) {
    out.put(", ");
    out.put(faults);
    push_size(out, " faults, ", taken);
    out.put(" taken");
}
