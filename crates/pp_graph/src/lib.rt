//! Call graphs: which functions reach which, and their groups.
//!
//! A graph is a list of lists of numbers: at each function's place, from 0, the functions that it calls. `row_of` says
//! which functions one function reaches, and `groups_of` gives each function the number of its group, the least
//! function that is the same, or that it reaches and is reached by. A number that is no place of the list names
//! nothing.
//!
//! `specs/Reaches` says what a path is and what a group is, `specs/Rows` what a table of rows tells, `specs/Fronts`
//! what a search has found on its way.
#![tactic(auto)]

ghost use Rattle.std.specs.Prelude.{◌≡◌, ◌<◌, ◌^◌, IfOk, [], ◌∷◌, length};
ghost use Rattle.pp_graph.specs.Reaches.{AreGroups, calls_of};
ghost use Rattle.pp_graph.specs.Rows.{Grouped, IsRow, Tells, bit, group, mutual_at};
ghost use Rattle.pp_graph.specs.Fronts.{IsFront, Marked, unmarked_at};

use pp_list::Items;
pub use std::alloc::AllocError as NoMemory;
use std::alloc::{AllocError, Global};

/// What was found from one function on: a mark for each function, and the marked ones in the order in which they were
/// found.
#[derive(Drop)]
struct Front {
    marks: Items<bool>,
    found: Items<u32>,
}

fn unmarked(alloc: Global, n: usize) -> Result<Front, AllocError>
    ensures is { IfOk result (λ s. IsFront n s) }
    ensures none { IfOk result (λ s. s.found ≡ []) }
{
    let mut marks = Items::new(alloc);
    for i in 0..n {
        marks.push(false)?;
    }
    Ok(Front {
        marks,
        found: Items::new(alloc),
    })
}

fn is_unmarked(marks: &[bool], g: usize) -> bool
    ensures { result ≡ unmarked_at marks.now g }
{
    match marks.get(g) {
        None => false,
        Some(b) => !*b,
    }
}

/// The front with g, where g has a mark.
fn mark(front: Front, g: u32) -> Result<Front, AllocError>
    requires { IsFront (length front.marks) front }
    ensures { IfOk result (λ s. Marked front (g ∷ []) s) }
{
    if !is_unmarked(front.marks.as_slice(), g as usize) {
        return Ok(front);
    }
    let Front {
        mut marks,
        mut found,
    } = front;
    marks.set(g as usize, true);
    found.push(g)?;
    Ok(Front { marks, found })
}

fn mark_all(front: Front, gs: &[u32]) -> Result<Front, AllocError>
    requires { IsFront (length front.marks) front }
    ensures { IfOk result (λ s. Marked front gs.now s) }
{
    let mut all = front;
    for i in 0..gs.len() {
        all = mark(all, gs[i])?;
    }
    Ok(all)
}

fn called(calls: &[Items<u32>], f: usize) -> &[u32]
    requires { f < length calls.now }
    ensures { result.now ≡ calls_of calls.now f }
{
    calls[f].as_slice()
}

/// Which functions f reaches: a mark for each function. The only error is want of memory.
pub fn row_of(alloc: Global, calls: &[Items<u32>], f: usize) -> Result<Items<bool>, AllocError>
    requires { f < length calls.now }
    ensures { IfOk result (λ row. IsRow calls.now f row) }
{
    let start = unmarked(alloc, calls.len())?;
    let mut front = mark_all(start, called(calls, f))?;
    let mut next = 0;
    while next < front.found.len() {
        let g = front.found.as_slice()[next] as usize;
        front = mark_all(front, called(calls, g))?;
        next += 1;
    }
    let Front { marks, found: _ } = front;
    Ok(marks)
}

fn rows_of(alloc: Global, calls: &[Items<u32>]) -> Result<Items<Items<bool>>, AllocError>
    ensures { IfOk result (λ rows. Tells calls.now (length calls.now) rows) }
{
    let mut rows = Items::new(alloc);
    for f in 0..calls.len() {
        rows.push(row_of(alloc, calls, f)?)?;
    }
    Ok(rows)
}

fn reaches(rows: &[Items<bool>], f: usize, g: usize) -> bool
    ensures { result ≡ bit rows.now f g }
{
    match rows.get(f) {
        None => false,
        Some(row) => match row.get(g) {
            None => false,
            Some(b) => *b,
        },
    }
}

fn are_mutual(rows: &[Items<bool>], f: usize, g: usize) -> bool
    ensures { result ≡ mutual_at rows.now f g }
{
    reaches(rows, f, g) && reaches(rows, g, f)
}

fn group_of(rows: &[Items<bool>], f: usize) -> usize
    ensures { result ≡ group rows.now f }
{
    for g in 0..f {
        if are_mutual(rows, f, g) {
            return g;
        }
    }
    f
}

fn groups_in(alloc: Global, rows: &[Items<bool>]) -> Result<Items<u32>, AllocError>
    requires { length rows.now < 2 ^ 32 }
    ensures { IfOk result (λ groups. Grouped rows.now (length rows.now) groups) }
{
    let mut groups = Items::new(alloc);
    for f in 0..rows.len() {
        groups.push(group_of(rows, f) as u32)?;
    }
    Ok(groups)
}

/// The number of each function's group: the least function of it. The only error is want of memory.
pub fn groups_of(alloc: Global, calls: &[Items<u32>]) -> Result<Items<u32>, AllocError>
    requires { length calls.now < 2 ^ 32 }
    ensures { IfOk result (λ groups. AreGroups calls.now groups) }
{
    let rows = rows_of(alloc, calls)?;
    let groups = groups_in(alloc, rows.as_slice())?;
    Ok(groups)
}
