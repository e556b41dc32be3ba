//! A long chain of a log, over clauses of ten literals: `benches/refute.sh` times its check.

use crate::case::Fields;
use crate::numbers::at;
use crate::solver::push_on_text;
use pp_case_line::{CaseLine, NoMemory};
use std::alloc::Global;

/// The variables that each clause has besides those of the ring.
const SIDES: &str = "1 2 3 4 5 6 7 8 ";

/// The assumptions that they are false.
const SIDES_FALSE: &str = "-1 -2 -3 -4 -5 -6 -7 -8 -";

/// How many clauses lead from one variable of the ring to the next.
const RING: u32 = 1000;

/// Adds whether the log of a chain of so many steps is accepted.
pub fn push_answer(line: &mut CaseLine, alloc: Global, given: &Fields) -> Result<(), NoMemory> {
    let steps = at(&given.first, 0);
    line.put(steps);
    line.put(" steps: ");
    let problem = Fields::read(alloc, problem(alloc, steps)?.as_str())?;
    push_on_text(line, alloc, Some(&problem), log(alloc, steps)?.as_str())
}

/// A variable of the ring, which follow those of the sides.
fn ring(place: u32) -> u32 {
    9 + place % RING
}

/// The negations of the lemma's literals, one clause with the first variable of the ring, and one for each of its
/// steps.
fn problem(alloc: Global, steps: u32) -> Result<String, NoMemory> {
    let mut text = CaseLine::new(alloc);
    text.put(": ");
    text.put(SIDES_FALSE);
    text.put(ring(steps));
    text.put(" : ");
    text.put(SIDES);
    text.put(ring(0));
    for place in 0..RING {
        text.put(" ; ");
        text.put(SIDES);
        text.put(ring(place + 1));
        text.put(" -");
        text.put(ring(place));
    }
    text.put(" ;");
    text.end()
}

/// The log of one lemma, whose chain goes so many steps along the ring.
fn log(alloc: Global, steps: u32) -> Result<String, NoMemory> {
    let mut text = CaseLine::new(alloc);
    text.put(SIDES);
    text.put(ring(steps));
    text.put(" <- 1");
    for step in 0..steps {
        text.put(" ");
        text.put(2 + step % RING);
    }
    text.put("/");
    text.end()
}
