//! How large the values of sorts are. Each sum is cut at the greatest number.

ghost use Rattle.std.specs.Prelude.{◌≡◌, ◌≤◌, ◌+◌, IfOk, OnOk, length, map, sum};
ghost use Rattle.pp_list.specs.Joined.{joined};
ghost use Rattle.pp_prog.specs.declared.sort.Sort.TheVariants as sort;
ghost use Rattle.pp_prog.specs.Sizes.{flat, sorts_in_ctor, width};
ghost use Rattle.pp_prog.specs.Sorts.{param_sorts};
ghost use Rattle.pp_estimate.specs.Bounds.{AreRows, full_row, size, sizes};
ghost use Rattle.pp_estimate.specs.Cut.{cut};
ghost use Rattle.pp_estimate.specs.Estimates.{widths};

use crate::NoMemory;
use pp_checks::ctors_of;
use pp_list::{Items, at};
use pp_prog::{Ctor, DataId, Function, Param, Sort, TypeTable};
use std::alloc::Global;

/// The bits and the nodes of a block that holds every value of a sort up to a height.
#[derive(Clone, Copy, PartialEq, Eq, Debug)]
pub(crate) struct Size {
    pub bits: u64,
    pub nodes: u64,
}

/// The size of a number.
const INT: Size = Size { bits: 32, nodes: 0 };

/// The size of a truth value.
const BOOL: Size = Size { bits: 1, nodes: 0 };

impl Size {
    fn add(self, more: Size) -> Size
        ensures { result ≡ record { bits = cut (self.bits + more.bits); nodes = cut (self.nodes + more.nodes) } }
    {
        Size {
            bits: self.bits.saturating_add(more.bits),
            nodes: self.nodes.saturating_add(more.nodes),
        }
    }
}

/// The sizes of the values of each datatype up to one height, in the table's order.
type Row = Items<Size>;

/// The rows of the first heights, from 0 on.
pub(crate) type Rows = Items<Row>;

/// The greatest height whose row is kept.
const HIGHEST_KEPT: u64 = 64;

/// The size of the values of the sort up to a height. The rows up to that height are kept for later questions, as far
/// as rows are kept at all. The only error is want of memory.
pub(crate) fn size_of(
    alloc: Global,
    types: &TypeTable,
    rows: &mut Rows,
    s: Sort,
    height: u64,
) -> Result<Size, NoMemory>
    requires { AreRows types.now rows.old }
    ensures size { IfOk result (λ z. z ≡ size types.now height s) }
    ensures rows { OnOk result (AreRows types.now rows.new) }
{
    match s {
        Sort::Int => Ok(INT),
        Sort::Bool => Ok(BOOL),
        Sort::Tree(_) => {
            keep_rows(alloc, types, rows, height)?;
            size_by(alloc, types, rows.as_slice(), s, height)
        }
    }
}

/// Keeps the rows up to this height, or up to the greatest one whose row is kept.
fn keep_rows(alloc: Global, types: &TypeTable, rows: &mut Rows, height: u64) -> Result<(), NoMemory>
    requires { AreRows types.now rows.old }
    ensures { OnOk result (AreRows types.now rows.new) }
{
    let count = height.min(HIGHEST_KEPT) as usize + 1;
    for _ in rows.len()..count {
        let row = row_after(alloc, types, rows.as_slice())?;
        rows.push(row)?;
    }
    Ok(())
}

/// The size of the values of the sort up to a height, which is looked up where these rows have it.
fn size_by(
    alloc: Global,
    types: &TypeTable,
    rows: &[Row],
    s: Sort,
    height: u64,
) -> Result<Size, NoMemory>
    requires { AreRows types.now rows.now }
    ensures { IfOk result (λ z. z ≡ size types.now height s) }
{
    match at(rows, height as usize) {
        Some(row) => Ok(size_in(types, row.as_slice(), height, s)),
        None => {
            let row = row_above(alloc, types, rows, height)?;
            Ok(size_in(types, row.as_slice(), height, s))
        }
    }
}

/// The row of a height that these rows don't reach.
fn row_above(alloc: Global, types: &TypeTable, rows: &[Row], height: u64) -> Result<Row, NoMemory>
    requires rows { AreRows types.now rows.now }
    requires above { length rows.now ≤ height }
    ensures { IfOk result (λ row. row ≡ full_row types.now height) }
{
    let mut row = row_after(alloc, types, rows)?;
    for h in rows.len() as u64..height {
        row = next_row(alloc, types, row.as_slice(), h)?;
    }
    Ok(row)
}

/// The row of the first height that these rows don't reach.
fn row_after(alloc: Global, types: &TypeTable, rows: &[Row]) -> Result<Row, NoMemory>
    requires { AreRows types.now rows.now }
    ensures { IfOk result (λ row. row ≡ full_row types.now (length rows.now)) }
{
    match rows.split_last() {
        None => lowest(alloc, types),
        Some((below, lower)) => next_row(alloc, types, below.as_slice(), lower.len() as u64),
    }
}

/// The sizes up to the height 0, which no tree has.
fn lowest(alloc: Global, types: &TypeTable) -> Result<Row, NoMemory>
    ensures { IfOk result (λ row. row ≡ full_row types.now 0) }
{
    let mut row = Items::new(alloc);
    for d in 0..types.datatypes.len() {
        row.push(Size { bits: 0, nodes: 0 })?;
    }
    Ok(row)
}

/// The sizes up to one more than this height, for which the sizes are given.
fn next_row(alloc: Global, types: &TypeTable, below: &[Size], height: u64) -> Result<Row, NoMemory>
    requires { below.now ≡ full_row types.now height }
    ensures { IfOk result (λ row. row ≡ full_row types.now (height + 1)) }
{
    let mut row = Items::new(alloc);
    for d in 0..types.datatypes.len() {
        row.push(higher_size(types, below, height, DataId(d as u32)))?;
    }
    Ok(row)
}

/// The size of the values of a datatype, up to one more than this height.
fn higher_size(types: &TypeTable, below: &[Size], height: u64, d: DataId) -> Size
    requires { below.now ≡ full_row types.now height }
    ensures { result ≡ size types.now (height + 1) (sort.Tree d) }
{
    let ctors = ctors_of(types, d);
    let own = Size {
        bits: ctors.len() as u64,
        nodes: 1,
    };
    own.add(size_of_fields(types, below, height, ctors))
}

/// The size of all fields of these constructors.
fn size_of_fields(types: &TypeTable, row: &[Size], height: u64, ctors: &[Ctor]) -> Size
    requires { row.now ≡ full_row types.now height }
    ensures { result ≡ sizes types.now height (joined (map sorts_in_ctor ctors.now)) }
{
    let mut total = Size { bits: 0, nodes: 0 };
    for c in ctors {
        total = total.add(size_of_all(types, row, height, c.fields.as_slice()));
    }
    total
}

/// The size of values of these sorts, together.
fn size_of_all(types: &TypeTable, row: &[Size], height: u64, sorts: &[Sort]) -> Size
    requires { row.now ≡ full_row types.now height }
    ensures { result ≡ sizes types.now height sorts.now }
{
    let mut total = Size { bits: 0, nodes: 0 };
    for s in sorts {
        total = total.add(size_in(types, row, height, *s));
    }
    total
}

/// The size of the values of a sort, where those of the datatypes stand in a row.
fn size_in(types: &TypeTable, row: &[Size], height: u64, s: Sort) -> Size
    requires { row.now ≡ full_row types.now height }
    ensures { result ≡ size types.now height s }
{
    match s {
        Sort::Int => INT,
        Sort::Bool => BOOL,
        Sort::Tree(d) => {
            if (d.0 as usize) < types.datatypes.len() {
                row[d.0 as usize]
            } else {
                Size {
                    bits: 0,
                    nodes: height.min(1),
                }
            }
        }
    }
}

fn width_of(s: Sort) -> u64
    ensures { result ≡ width s }
{
    match s {
        Sort::Int => 32,
        Sort::Bool => 1,
        Sort::Tree(_) => 32,
    }
}

/// The widths of these sorts, together.
fn widths_of(sorts: &[Sort]) -> u64
    ensures { result ≡ cut (sum (map width sorts.now)) }
{
    let mut total = 0u64;
    for s in sorts {
        total = total.saturating_add(width_of(*s));
    }
    total
}

/// The bits of a node of the datatype whose fields have names.
pub(crate) fn flat_of(types: &TypeTable, d: DataId) -> u64
    ensures { result ≡ cut (flat types.now d) }
{
    let ctors = ctors_of(types, d);
    let mut total = ctors.len() as u64;
    for c in ctors {
        total = total.saturating_add(widths_of(c.fields.as_slice()));
    }
    total
}

/// The widths of the parameters and the result of the function.
pub(crate) fn function_widths(f: &Function) -> u64
    ensures { result ≡ cut (widths f.now) }
{
    let mut total = width_of(f.result);
    for p in f.params.as_slice() {
        total = total.saturating_add(width_of(p.sort));
    }
    total
}
