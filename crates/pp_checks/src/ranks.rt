//! Cones and ranks.

ghost use Rattle.std.specs.Prelude.{◌≡◌, ◌↔◌, ◌<◌, ◌≤◌, ◌^◌, ◌⊎◌, List, ℕ, IfOk, IsTrue, length};
ghost use Rattle.pp_graph.specs.Reaches.{Reaches};
ghost use Rattle.pp_graph.specs.Rows.{Tells, bit, marked, is_set};
ghost use Rattle.pp_checks.specs.Plan.{AreOf};
ghost use Rattle.pp_checks.specs.Tables.{IsRankIn};

use crate::NoMemory;
use pp_list::Items;
use std::alloc::Global;

/// What each function reaches: a row of marks for each.
pub(crate) fn rows_of(alloc: Global, calls: &[Items<u32>]) -> Result<Items<Items<bool>>, NoMemory>
    ensures { IfOk result (λ rows. Tells calls.now (length calls.now) rows) }
{
    let mut rows = Items::new(alloc);
    for f in 0..calls.len() {
        rows.push(pp_graph::row_of(alloc, calls, f)?)?;
    }
    Ok(rows)
}

/// Whether the item is marked.
pub(crate) fn is_marked(marks: &[bool], i: usize) -> bool
    ensures { result ≡ marked marks.now i }
{
    match marks.get(i) {
        None => false,
        Some(b) => *b,
    }
}

/// Whether g is f, or f reaches it.
pub(crate) fn is_in_cone(rows: &[Items<bool>], f: usize, g: usize) -> bool
    ensures { IsTrue result ↔ ((f ≡ g) ⊎ IsTrue (bit rows.now f g)) }
{
    f == g || reaches(rows, f, g)
}

fn reaches(rows: &[Items<bool>], f: usize, g: usize) -> bool
    ensures { result ≡ bit rows.now f g }
{
    match rows.get(f) {
        None => false,
        Some(row) => is_marked(row.as_slice(), g),
    }
}

/// How many functions the cone of f has.
fn rank_of(rows: &[Items<bool>], f: usize) -> usize
    ensures rank { IsRankIn rows.now f (length rows.now) result }
    ensures few { result ≤ length rows.now }
{
    let mut count = 0;
    for g in 0..rows.len() {
        if is_in_cone(rows, f, g) {
            count += 1;
        }
    }
    count
}

/// The rank of each function.
pub(crate) fn ranks_of(alloc: Global, rows: &[Items<bool>]) -> Result<Items<u32>, NoMemory>
    requires { length rows.now < 2 ^ 32 }
    ensures { IfOk result (λ ranks. AreOf (λ f r. IsRankIn rows.now f (length rows.now) r) (length rows.now) ranks) }
{
    let mut ranks = Items::new(alloc);
    for f in 0..rows.len() {
        ranks.push(rank_of(rows, f) as u32)?;
    }
    Ok(ranks)
}
