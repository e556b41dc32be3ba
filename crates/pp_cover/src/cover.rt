//! Whether patterns cover a sort.

ghost use Rattle.std.specs.Prelude.{◌≡◌, ◌↔◌, ◌<◌, ◌^◌, length, IfOk, IsTrue};
ghost use Rattle.pp_prog.specs.Table.{is_sort};
ghost use Rattle.pp_prog.specs.Valid.{Covers};
ghost use Rattle.pp_cover.specs.Cover.{IsStep, first_column, first_matrix};

use crate::NoMemory;
use crate::constraint::{Constraint, Row, push_constraint};
use crate::fault::CoverFault;
use crate::matrix::Matrix;
use crate::split::split;
use pp_list::Items;
use pp_prog::{Pattern, Sort, TypeTable};
use std::alloc::Global;

/// What a matrix's shortest row tells of it.
#[derive(Clone, Copy)]
pub(crate) enum Step {
    /// There is no row, so it isn't covered.
    Uncovered,
    /// Some row constrains nothing, so it is covered.
    Covered,
    /// Some row constrains the value in this column.
    Split(usize),
}

/// Whether each value of the sort fits one of the patterns. The sort is one of the table, and there are fewer than 2^16
/// patterns. A pattern of another sort is allowed: no value of this sort fits it, but a wildcard or a bound name. The
/// only error is want of memory. The crate's page says which patterns take long.
pub fn covered(
    alloc: Global,
    table: &TypeTable,
    sort: Sort,
    patterns: &[Pattern],
) -> Result<bool, CoverFault>
    requires in_range { IsTrue (is_sort table.now.datatypes sort) }
    requires few { length patterns.now < 2 ^ 16 }
    ensures { IfOk result (λ b. IsTrue b ↔ Covers table.now.ctors sort patterns.now) }
{
    let mut pending = Items::new(alloc);
    pending.push(matrix_of(alloc, sort, patterns)?)?;
    while let Some(matrix) = pending.pop() {
        match next_step(matrix.rows.as_slice()) {
            Step::Uncovered => return Ok(false),
            Step::Covered => {}
            Step::Split(column) => pending.append(split(alloc, table, &matrix, column)?)?,
        }
    }
    Ok(true)
}

/// One column, with a row for each pattern.
fn matrix_of<'p>(alloc: Global, sort: Sort, patterns: &'p [Pattern]) -> Result<Matrix<'p>, NoMemory>
    ensures { IfOk result (λ m. m ≡ first_matrix sort patterns.now) }
{
    let mut sorts = Items::new(alloc);
    sorts.push(sort)?;
    let mut rows = Items::new(alloc);
    for pattern in patterns {
        let mut row = Items::new(alloc);
        push_constraint(&mut row, 0, pattern)?;
        rows.push(row)?;
    }
    Ok(Matrix { sorts, rows })
}

/// What is to be done with a matrix of these rows. A shortest row decides: it is the first to constrain nothing.
fn next_step(rows: &[Row<'_>]) -> Step
    ensures { IsStep rows.now result }
{
    if rows.is_empty() {
        return Step::Uncovered;
    }
    match first_column(rows[shortest(rows)].as_slice()) {
        None => Step::Covered,
        Some(column) => Step::Split(column),
    }
}

/// The column of the row's first constraint.
fn first_column(row: &[Constraint<'_>]) -> Option<usize>
    ensures { result ≡ first_column row.now }
{
    if row.is_empty() {
        return None;
    }
    Some(row[0].column)
}

/// The place of a shortest row.
fn shortest(rows: &[Row<'_>]) -> usize
    requires { 0 < length rows.now }
    ensures { result < length rows.now }
{
    let mut least = 0;
    for i in 1..rows.len() {
        if rows[i].len() < rows[least].len() {
            least = i;
        }
    }
    least
}
