//! Sources, and the units that they spell, or why they are refused.

use crate::adding::{push_number, push_size};
use crate::case::size;
use crate::reading::{Refused, unit};
use crate::units::push_unit;
use bumpalo::Bump;
use pp_case_line::{CaseLine, NoMemory};
use pp_parse::ParseFault;
use std::alloc::Global;
use std::io;

/// Adds the answer to a function whose body is a name in so many brackets, and to the brackets that open alone.
pub fn push_brackets(out: &mut CaseLine, alloc: Global, count: &str) -> io::Result<()> {
    let opened = brackets(alloc, size(count), "", "", "")?;
    let closed = brackets(alloc, size(count), "a", ")", " }")?;
    push_parsed(out, alloc, closed.as_bytes(), false);
    out.put("\n");
    push_parsed(out, alloc, opened.as_bytes(), false);
    out.put("\n");
    Ok(())
}

/// The source of such a function: what stands in the brackets, what closes each, and what is behind them.
fn brackets(
    alloc: Global,
    count: usize,
    within: &str,
    closes: &str,
    behind: &str,
) -> Result<String, NoMemory> {
    let mut source = CaseLine::new(alloc);
    source.put("object A { def f(a: Int): Int = ");
    push_times(&mut source, "(", count);
    source.put(within);
    push_times(&mut source, closes, count);
    source.put(behind);
    source.end()
}

/// Adds a piece so many times.
fn push_times(source: &mut CaseLine, piece: &str, count: usize) {
    for _ in 0..count {
        source.put(piece);
    }
}

/// Adds what a source is answered; the declarations of a unit may be counted alone.
pub fn push_parsed(out: &mut CaseLine, alloc: Global, source: &[u8], counted: bool) {
    let arena = Bump::new(alloc);
    match unit(alloc, &arena, source) {
        Ok(unit) if counted => push_size(out, "", unit.decls.len()),
        Ok(unit) => return push_unit(out, &unit),
        Err(refused) => return push_refused(out, refused),
    }
    out.put(" declarations");
}

/// Adds why a source is refused.
fn push_refused(out: &mut CaseLine, refused: Refused) {
    match refused {
        Refused::TooLong => out.put("too long"),
        Refused::NoText => out.put("no text"),
        Refused::NoTokens => out.put("no tokens"),
        Refused::Unspelled(fault) => push_fault(out, &fault),
    }
}

fn push_fault(out: &mut CaseLine, fault: &ParseFault) {
    match fault {
        ParseFault::Syntax(at) => push_number(out, "syntax at ", *at),
        ParseFault::TooDeep(at) => push_number(out, "too deep at ", *at),
        ParseFault::Unsupported(name, at) => {
            out.put("unsupported ");
            out.put(name.as_str());
            push_number(out, " at ", *at)
        }
        ParseFault::Memory => out.put("out of memory"),
    }
}
