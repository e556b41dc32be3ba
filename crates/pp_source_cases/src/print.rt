//! The lines of `pp_print` that no program of a source has, those on words, files and memory, and what a sink takes of
//! three lines where one of its puts fails. What is printed was written by hand.

use crate::adding::push_size;
use crate::failing::Failing;
use pp_case_line::CaseLine;
use pp_list::Items;
use pp_print::{
    count_line, done_line, made_line, memory_line, put_lines, read_fault_line, summary_line,
    too_long_line, valid_line, words_line, write_fault_line,
};
use pp_prog::{CtorId, Value};
use pp_seam::NoMemory;
use std::alloc::Global;
use std::io;
use std::ops::Range;

/// The numbers of the lines that are printed, and of those that are put.
const PRINTED: Range<u32> = 0..13;

const PUT: Range<u32> = 13..16;

/// Adds all of them.
pub fn push_answers(out: &mut CaseLine, alloc: Global) -> io::Result<()> {
    for line in &lines(alloc, PRINTED)? {
        out.put(line.as_str());
    }
    push_puts(out, &lines(alloc, PUT)?);
    Ok(())
}

fn lines(alloc: Global, numbers: Range<u32>) -> Result<Vec<String>, NoMemory> {
    let mut lines = Vec::new(alloc);
    for number in numbers {
        lines.push(line(alloc, number)?)?;
    }
    Ok(lines)
}

/// The lines. Those that are printed have the most checks that a number can tell, more functions than a program has, a
/// value of an unknown constructor, an empty name, and numbers of functions that no source is made of; then come those
/// on words, files and memory.
fn line(alloc: Global, number: u32) -> Result<String, NoMemory> {
    match number {
        0 => valid_line(alloc, "id[Int]", u32::MAX),
        1 => summary_line(alloc, 512, 10, 0, 99),
        2 => unknown_line(alloc),
        3 => count_line(alloc, "", 1),
        4 => made_line(alloc, 0),
        5 => made_line(alloc, u32::MAX),
        6 => too_long_line(alloc, 1),
        7 => too_long_line(alloc, 16),
        8 => read_fault_line(alloc, "a.scala"),
        9 => read_fault_line(alloc, ""),
        10 => String::from_str(alloc, words_line()),
        11 => String::from_str(alloc, write_fault_line()),
        12 => String::from_str(alloc, memory_line()),
        13 => valid_line(alloc, "g", 0),
        14 => count_line(alloc, "f", 2),
        _ => summary_line(alloc, 1, 1, 0, 0),
    }
}

fn unknown_line(alloc: Global) -> Result<String, NoMemory> {
    let unknown = Value::Tree(CtorId(3), Items::new(alloc));
    done_line(alloc, &[], "f", &unknown)
}

/// Each line is one put, and after a failed put nothing more is put: the number of the put that fails, whether one did,
/// how many were made, how many failed, and how many bytes were taken.
fn push_puts(out: &mut CaseLine, lines: &[String]) {
    for fails_at in 0..5 {
        push_size(out, "", fails_at);
        let counted = push_put(out, ": ", fails_at, lines);
        push_size(out, " puts, ", counted.faults);
        push_size(out, " faults, ", counted.taken);
        out.put(" bytes\n");
    }
    push_put(out, "no lines: ", 1, &[]);
    out.put(" puts\n");
}

/// Puts the lines where the put of this number fails. Adds whether one did, and how many were made.
fn push_put(out: &mut CaseLine, before: &str, fails_at: usize, lines: &[String]) -> Failing {
    let mut sink = Failing::at(fails_at);
    out.put(before);
    out.put(put_lines(&mut sink, lines).is_err());
    push_size(out, ", ", sink.puts);
    sink
}
