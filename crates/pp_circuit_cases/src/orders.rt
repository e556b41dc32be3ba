//! Orders of calls to a trail with propagation. A literal is a letter here, a capital for a negation.

ghost use Rattle.std.specs.Prelude.{◌<◌, ◌^◌, ◌-◌, IsTrue, length};
ghost use Rattle.pp_clause.specs.Bound.{IsUpTo};

use crate::case::{MOST, add};
use crate::learning::{is_free, watch_over};
use crate::numbers::words;
use pp_case_line::CaseLine;
use pp_clause::{Clause, Clauses, Lit, NoMemory, raised};
use pp_trail::Step;
use pp_watch::Watch;
use std::alloc::Global;

/// The greatest variable that may be decided, and that is shown.
const LAST: u32 = 8;

/// Adds what a trail over the clauses shows while the calls are made: its steps, or the literals that are true.
pub fn push_answer(
    line: &mut CaseLine,
    alloc: Global,
    steps: bool,
    clauses: &str,
    calls: &str,
) -> Result<(), NoMemory> {
    let mut watch = watch_of(alloc, clauses)?;
    make_all(line, alloc, &mut watch, steps, &words(alloc, calls)?)
}

/// A trail over the clauses of the words of a field.
fn watch_of(alloc: Global, field: &str) -> Result<Watch, NoMemory> {
    let mut clauses = Clauses::new(alloc);
    add_all(alloc, &mut clauses, &words(alloc, field)?)?;
    watch_over(alloc, &clauses, &[Lit::new(LAST, true)])
}

/// Adds the clauses of the letters of the words.
fn add_all(alloc: Global, clauses: &mut Clauses, words: &[&str]) -> Result<(), NoMemory> {
    for word in words {
        add(alloc, clauses, &lits(alloc, word.as_bytes())?)?;
    }
    Ok(())
}

/// Makes the calls.
fn make_all(
    line: &mut CaseLine,
    alloc: Global,
    watch: &mut Watch,
    steps: bool,
    calls: &[&str],
) -> Result<(), NoMemory> {
    for call in calls {
        make(line, alloc, watch, steps, call.as_bytes())?;
    }
    Ok(())
}

/// The literals of those bytes that are letters.
fn lits(alloc: Global, bytes: &[u8]) -> Result<Vec<Lit>, NoMemory> {
    let mut lits = Vec::new(alloc);
    for byte in bytes {
        if byte.is_ascii_alphabetic() {
            lits.push(lit(*byte))?;
        }
    }
    Ok(lits)
}

/// The literal of a letter.
fn lit(letter: u8) -> Lit {
    Lit::new(u32::from(letter % 32).max(1), letter.is_ascii_lowercase())
}

/// Makes a call, and shows the trail where that is asked for.
fn make(
    line: &mut CaseLine,
    alloc: Global,
    watch: &mut Watch,
    steps: bool,
    call: &[u8],
) -> Result<(), NoMemory> {
    match byte(call, 0) {
        b'+' => return add_clause(watch, alloc, &lits(alloc, call)?),
        b'!' => return propagate(line, watch, steps),
        b'?' => decide(watch, lit(byte(call, 1))),
        b'<' => undo(watch, byte(call, 1)),
        _ => show(line, watch, steps),
    }
    Ok(())
}

/// The byte of a call at this place, and a blank where there is none.
fn byte(call: &[u8], place: usize) -> u8 {
    call.get(place).copied().unwrap_or(b' ')
}

/// Adds a clause of variables that the trail has room for.
fn add_clause(watch: &mut Watch, alloc: Global, lits: &[Lit]) -> Result<(), NoMemory> {
    if let Some(clause) = Clause::of(alloc, lits)? {
        if is_addable(watch, &clause) {
            watch.add(clause)?;
        }
    }
    Ok(())
}

/// Decides a literal that is open.
fn decide(watch: &mut Watch, lit: Lit) {
    if is_free(watch, lit) {
        watch.decide(lit);
    }
}

/// Keeps as many steps as the digit says.
fn undo(watch: &mut Watch, digit: u8) {
    let len = digit.saturating_sub(b'0') as usize;
    watch.undo(len.min(watch.trail().len()));
}

/// Propagates, and shows the trail, or an exclamation mark and the clause that is false.
fn propagate(line: &mut CaseLine, watch: &mut Watch, steps: bool) -> Result<(), NoMemory> {
    match watch.propagate()? {
        Some(number) => show_conflict(line, steps, number),
        None => show(line, watch, steps),
    }
    Ok(())
}

/// Shows that a clause is false, and which where steps are shown.
fn show_conflict(line: &mut CaseLine, steps: bool, number: u32) {
    line.put("!");
    if steps {
        line.put(number);
    }
    line.put(";");
}

/// Shows the steps, or the literals that are true.
fn show(line: &mut CaseLine, watch: &Watch, steps: bool) {
    if steps {
        for step in watch.trail() {
            show_step(line, watch, step);
        }
    } else {
        show_values(line, watch);
    }
    line.put(";");
}

/// Shows the literals that are true, in order of variable.
fn show_values(line: &mut CaseLine, watch: &Watch) {
    for var in 1..=LAST {
        let lit = Lit::new(var, true);
        match watch.value(lit) {
            Some(true) => line.put(letter(lit)),
            Some(false) => line.put(letter(lit.negated())),
            None => {}
        }
    }
}

/// Shows a step: its literal, the place of its variable, and the number of its reason.
fn show_step(line: &mut CaseLine, watch: &Watch, step: &Step) {
    line.put(letter(step.lit));
    if let Some(place) = watch.place(step.lit.var()) {
        line.put(place);
    }
    if let Some(reason) = step.reason {
        line.put(":");
        line.put(reason);
    }
}

/// The letter of the literal.
fn letter(lit: Lit) -> char {
    let first = if lit.is_positive() { b'a' } else { b'A' };
    let place = (lit.var() - 1).min(25);
    (first + place as u8) as char
}

/// Whether the trail has room for a clause.
fn is_addable(watch: &Watch, clause: &Clause) -> bool
    ensures room { IsTrue result → IsUpTo watch.now.vars clause.now }
    ensures few { IsTrue result → length watch.now.clauses < 2 ^ 32 - 1 }
{
    raised(0, clause.lits()) <= watch.vars() && (watch.clauses().len() as u64) < MOST
}
