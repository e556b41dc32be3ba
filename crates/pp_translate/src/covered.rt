//! Coverage of a match, whatever the sort of its value and the number of its cases.

ghost use Rattle.std.specs.Prelude.{◌≡◌, ◌↔◌, IfOk, IsTrue};
ghost use Rattle.pp_prog.specs.Table.{is_sort};
ghost use Rattle.pp_prog.specs.Valid.{Covers};

use crate::NoMemory;
use pp_cover::{CoverFault, covered};
use pp_prog::{Pattern, Sort, TypeTable};
use std::alloc::Global;

fn is_sort(types: &TypeTable, sort: Sort) -> bool
    ensures { result ≡ is_sort types.now.datatypes sort }
{
    match sort {
        Sort::Int => true,
        Sort::Bool => true,
        Sort::Tree(d) => (d.0 as usize) < types.datatypes.len(),
    }
}

/// Whether each value of the sort fits one of the patterns. A sort that isn't one of the table has no value. There is
/// no memory for 65,536 patterns and more.
pub(crate) fn is_covered(
    alloc: Global,
    types: &TypeTable,
    sort: Sort,
    patterns: &[Pattern],
) -> Result<bool, NoMemory>
    ensures { IfOk result (λ b. IsTrue b ↔ Covers types.now.ctors sort patterns.now) }
{
    if !is_sort(types, sort) {
        return Ok(true);
    }
    if patterns.len() >= 65536 {
        return Err(NoMemory);
    }
    match covered(alloc, types, sort, patterns) {
        Ok(b) => Ok(b),
        Err(CoverFault::Memory) => Err(NoMemory),
    }
}
