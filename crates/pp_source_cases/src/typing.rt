//! The typing of sources. The answer to a line is `typed`, or the fault with its name, the number of its source and its
//! offset; `no unit` where a source spells none.

use crate::adding::{push_number, push_size, push_word};
use crate::reading::units;
use bumpalo::Bump;
use pp_case_line::CaseLine;
use pp_tree::Unit;
use pp_types::{TypeFault, check};
use std::alloc::Global;

/// Adds what a task on units answers to sources.
pub fn push_answer(out: &mut CaseLine, alloc: Global, task: &str, sources: &[Vec<u8>]) {
    let arena = Bump::new(alloc);
    match units(alloc, &arena, sources) {
        Some(units) => push_asked(out, alloc, task, &units),
        None => out.put("no unit"),
    }
}

/// Adds how many units there are, where they are only to be parsed, and else whether they are typed.
fn push_asked(out: &mut CaseLine, alloc: Global, task: &str, units: &[Unit]) {
    match task {
        "parse" => {
            push_size(out, "", units.len());
            out.put(" units")
        }
        "type" => push_typed(out, alloc, units, true),
        _ => push_typed(out, alloc, units, false),
    }
}

/// Adds whether the units are typed, or how many functions they have where these are to be counted.
fn push_typed(out: &mut CaseLine, alloc: Global, units: &[Unit], counted: bool) {
    if units.len() > 16 {
        return out.put("too many sources");
    }
    match check(alloc, units) {
        Ok(typed) if counted => {
            out.put(typed.defs.len());
            out.put(" functions")
        }
        Ok(_) => out.put("typed"),
        Err(fault) => push_refused(out, fault),
    }
}

/// Adds a fault, with its name, the number of its source and its offset.
fn push_refused(out: &mut CaseLine, fault: TypeFault) {
    out.put(&fault);
    if let Some(fault) = fault.into_fault() {
        push_word(out, " ", fault.name.as_str());
        push_number(out, " at ", fault.source);
        push_number(out, ":", fault.at);
    }
}
