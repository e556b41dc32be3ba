//! Whether large matches are covered: `SOURCE CASE SIZE` makes a match over the datatypes of the source, which is
//! `data/coverage.scala`, and tells whether it is. The cases are `wide` (SIZE cases over 64 constructors with 16
//! fields), `literals` (SIZE numbers and a wildcard), `booleans` (a row of 16 fields, of which SIZE are looked at in
//! turn), `pairs` (SIZE rows that each look into one pair of 16) and `pigeons` (SIZE + 1 pigeons in SIZE holes, which
//! is hard); and what no source spells: `names` (a pair by its first value, under SIZE names each), `no_rows` and
//! `no_numbers` (no cases).

mod matches;
mod patterns;

ghost use Rattle.std.specs.Prelude.{IsTrue};
ghost use Rattle.pp_prog.specs.Table as spec;

use anyhow::{Result, ensure};
use matches::add_cases;
use pp_bounded_samples::words::{number, word};
use pp_case_line::CaseLine;
use pp_cover::covered;
use pp_list::Items;
use pp_prog::{Sort, TypeTable};
use std::alloc::Global;

/// The most patterns that a match has.
const MOST: usize = 65_535;

/// Tells whether the match of a case and a size over the datatypes of the table is covered.
pub fn tell_coverage(
    alloc: Global,
    words: &str,
    table: &TypeTable,
    out: &mut CaseLine,
) -> Result<()> {
    let case = word(words, 2);
    let size = number(words, 3, 0, u32::MAX)?;
    let covered = is_covered(alloc, table, case, size)?;
    let answer = if covered { "covered" } else { "not covered" };
    out.put(format_args!("{case} {size}: {answer}\n"));
    Ok(())
}

/// Whether the match of this name and size is covered.
fn is_covered(alloc: Global, table: &TypeTable, case: &str, size: u32) -> Result<bool> {
    let mut patterns = Items::new(alloc);
    let sort = add_cases(alloc, &mut patterns, case, size)?;
    ensure!(is_sort(table, sort), "no such datatype");
    let patterns = patterns.as_slice();
    Ok(covered(alloc, table, sort, &patterns[..patterns.len().min(MOST)])?)
}

/// Whether the sort is one of the table.
fn is_sort(table: &TypeTable, sort: Sort) -> bool
    ensures { IsTrue result → IsTrue (spec.is_sort table.now.datatypes sort) }
{
    match sort {
        Sort::Int | Sort::Bool => true,
        Sort::Tree(of) => (of.0 as usize) < table.datatypes.len(),
    }
}
