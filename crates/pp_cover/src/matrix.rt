//! Matrices: rows of constraints on the values of columns.

ghost use Rattle.std.specs.Prelude.{◌≡◌, ◌<◌, ◌^◌, IfOk};
ghost use Rattle.pp_cover.specs.Matrix.{admits, default_matrix, default_rows, mentions, names, names_in_row};
ghost use Rattle.pp_cover.specs.Matrix.{specialize, specialized_row, specialized_rows};

use crate::NoMemory;
use crate::constraint::{Constraint, Head, Row, push_constraints};
use pp_list::Items;
use pp_prog::{Sort, Sorts};
use std::alloc::Global;

/// Rows of constraints on the values of columns, which have these sorts. A column that no row mentions plays no part.
#[derive(Drop)]
pub(crate) struct Matrix<'p> {
    pub(crate) sorts: Sorts,
    pub(crate) rows: Items<Row<'p>>,
}

impl<'p> Matrix<'p> {
    /// The matrix where the value in the column has this head, with fields of these sorts.
    pub(crate) fn specialize(
        &self,
        alloc: Global,
        column: usize,
        head: Head,
        fields: &[Sort],
    ) -> Result<Matrix<'p>, NoMemory>
        ensures { IfOk result (λ m. m ≡ specialize self.now column head fields.now) }
    {
        let first = self.sorts.len();
        let mut sorts = Items::from_slice(alloc, self.sorts.as_slice())?;
        sorts.append(Items::from_slice(alloc, fields)?)?;
        let rows = specialize_rows(
            alloc,
            self.rows.as_slice(),
            column,
            head,
            fields.len(),
            first,
        )?;
        Ok(Matrix { sorts, rows })
    }

    /// The matrix where the value in the column has a head that no row names.
    pub(crate) fn default_matrix(
        &self,
        alloc: Global,
        column: usize,
    ) -> Result<Matrix<'p>, NoMemory>
        ensures { IfOk result (λ m. m ≡ default_matrix self.now column) }
    {
        let sorts = Items::from_slice(alloc, self.sorts.as_slice())?;
        let rows = unmentioned_rows(alloc, self.rows.as_slice(), column)?;
        Ok(Matrix { sorts, rows })
    }

    /// Whether some row asks for this head in the column.
    pub(crate) fn names(&self, column: usize, head: Head) -> bool
        ensures { result ≡ names column head self.now.rows }
    {
        for row in self.rows.as_slice() {
            if names_in_row(row.as_slice(), column, head) {
                return true;
            }
        }
        false
    }
}

fn names_in_row(row: &[Constraint<'_>], column: usize, head: Head) -> bool
    ensures { result ≡ names_in_row column head row.now }
{
    for constraint in row {
        if constraint.column == column && constraint.head.same(head) {
            return true;
        }
    }
    false
}

fn mentions(row: &[Constraint<'_>], column: usize) -> bool
    ensures { result ≡ mentions column row.now }
{
    for constraint in row {
        if constraint.column == column {
            return true;
        }
    }
    false
}

fn admits(row: &[Constraint<'_>], column: usize, head: Head, arity: usize) -> bool
    ensures { result ≡ admits column head arity row.now }
{
    for constraint in row {
        let met = constraint.head.same(head) && constraint.fields.as_slice().len() == arity;
        if constraint.column == column && !met {
            return false;
        }
    }
    true
}

fn specialize_row<'p>(
    alloc: Global,
    row: &[Constraint<'p>],
    column: usize,
    first: usize,
) -> Result<Row<'p>, NoMemory>
    requires { first < 2 ^ 63 }
    ensures { IfOk result (λ r. r ≡ specialized_row column first row.now) }
{
    let mut constraints = Items::new(alloc);
    for constraint in row {
        if constraint.column == column {
            push_constraints(&mut constraints, first, constraint.fields.as_slice())?;
        } else {
            constraints.push(constraint.copy())?;
        }
    }
    Ok(constraints)
}

fn copy_row<'p>(alloc: Global, row: &[Constraint<'p>]) -> Result<Row<'p>, NoMemory>
    ensures { IfOk result (λ r. r ≡ row.now) }
{
    let mut constraints = Items::new(alloc);
    for constraint in row {
        constraints.push(constraint.copy())?;
    }
    Ok(constraints)
}

fn specialize_rows<'p>(
    alloc: Global,
    rows: &[Row<'p>],
    column: usize,
    head: Head,
    arity: usize,
    first: usize,
) -> Result<Items<Row<'p>>, NoMemory>
    requires { first < 2 ^ 63 }
    ensures { IfOk result (λ rs. rs ≡ specialized_rows column head arity first rows.now) }
{
    let mut kept = Items::new(alloc);
    for row in rows {
        let row = row.as_slice();
        if admits(row, column, head, arity) {
            kept.push(specialize_row(alloc, row, column, first)?)?;
        }
    }
    Ok(kept)
}

fn unmentioned_rows<'p>(
    alloc: Global,
    rows: &[Row<'p>],
    column: usize,
) -> Result<Items<Row<'p>>, NoMemory>
    ensures { IfOk result (λ rs. rs ≡ default_rows column rows.now) }
{
    let mut kept = Items::new(alloc);
    for row in rows {
        let row = row.as_slice();
        if !mentions(row, column) {
            kept.push(copy_row(alloc, row)?)?;
        }
    }
    Ok(kept)
}
