//! Taking a matrix apart by the head of the value in one column.

ghost use Rattle.std.specs.Prelude.{◌≡◌, ◌+◌, ◌<◌, ◌≤◌, ◌^◌, drop, length, take, IfOk, IsTrue, slice_get};
ghost use Rattle.std.specs.List.{list_all};
ghost use Rattle.pp_prog.specs.Table.{is_sort};
ghost use Rattle.pp_cover.specs.Split.{block_of, bool_parts, named_parts, parts, tree_parts};

use crate::NoMemory;
use crate::constraint::Head;
use crate::matrix::Matrix;
use pp_list::Items;
use pp_prog::{Ctor, CtorId, DataId, Sort, TypeTable};
use std::alloc::Global;

/// The matrices that together stand for this one: it is covered where they all are. Each has fewer constraints.
pub(crate) fn split<'p>(
    alloc: Global,
    table: &TypeTable,
    matrix: &Matrix<'p>,
    column: usize,
) -> Result<Items<Matrix<'p>>, NoMemory>
    requires inside { column < length matrix.now.sorts }
    requires in_range { IsTrue (list_all (is_sort table.now.datatypes) matrix.now.sorts) }
    ensures { IfOk result (λ ms. ms ≡ parts table.now matrix.now column) }
{
    match matrix.sorts.as_slice()[column] {
        Sort::Int => {
            let mut parts = Items::new(alloc);
            parts.push(matrix.default_matrix(alloc, column)?)?;
            Ok(parts)
        }
        Sort::Bool => split_by_bool(alloc, matrix, column),
        Sort::Tree(d) => {
            let first = table.datatype(d).first.0;
            split_by_ctor(alloc, matrix, column, first, block(table, d))
        }
    }
}

/// The constructors of the datatype.
fn block(table: &TypeTable, d: DataId) -> &[Ctor]
    requires { d.0 < length table.now.datatypes }
    ensures { result.now ≡ block_of table.now.ctors (slice_get table.now.datatypes d.0) }
{
    let datatype = table.datatype(d);
    numbered(
        table.ctors.as_slice(),
        datatype.first.0 as usize,
        datatype.count as usize,
    )
}

/// So many constructors, from this number on.
fn numbered(ctors: &[Ctor], first: usize, count: usize) -> &[Ctor]
    requires { first + count ≤ length ctors.now }
    ensures { result.now ≡ take count (drop first ctors.now) }
{
    &ctors[first..first + count]
}

fn split_by_bool<'p>(
    alloc: Global,
    matrix: &Matrix<'p>,
    column: usize,
) -> Result<Items<Matrix<'p>>, NoMemory>
    ensures { IfOk result (λ ms. ms ≡ bool_parts matrix.now column) }
{
    let mut parts = Items::new(alloc);
    parts.push(matrix.specialize(alloc, column, Head::Bool(true), &[])?)?;
    parts.push(matrix.specialize(alloc, column, Head::Bool(false), &[])?)?;
    Ok(parts)
}

/// A matrix for each constructor that some row names, and one for all others. The last is looked at first: it has the
/// fewest rows, so it is the likeliest not to be covered.
fn split_by_ctor<'p>(
    alloc: Global,
    matrix: &Matrix<'p>,
    column: usize,
    first: u32,
    ctors: &[Ctor],
) -> Result<Items<Matrix<'p>>, NoMemory>
    requires { first + length ctors.now < 2 ^ 32 }
    ensures { IfOk result (λ ms. ms ≡ tree_parts matrix.now column first ctors.now) }
{
    let mut parts = named_parts(alloc, matrix, column, first, ctors)?;
    if parts.len() < ctors.len() {
        parts.push(matrix.default_matrix(alloc, column)?)?;
    }
    Ok(parts)
}

fn named_parts<'p>(
    alloc: Global,
    matrix: &Matrix<'p>,
    column: usize,
    first: u32,
    ctors: &[Ctor],
) -> Result<Items<Matrix<'p>>, NoMemory>
    requires { first + length ctors.now < 2 ^ 32 }
    ensures { IfOk result (λ ms. ms ≡ named_parts matrix.now column first ctors.now) }
{
    let mut parts = Items::new(alloc);
    for i in 0..ctors.len() {
        let head = Head::Tree(CtorId(first + i as u32));
        if matrix.names(column, head) {
            parts.push(matrix.specialize(alloc, column, head, ctors[i].fields.as_slice())?)?;
        }
    }
    Ok(parts)
}
