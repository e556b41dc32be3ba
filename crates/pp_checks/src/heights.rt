//! How high the values of sorts can be.

ghost use Rattle.std.specs.Prelude.{◌≡◌, ◌++◌, IfOk, OnOk, Some, drop, length, map, take};
ghost use Rattle.pp_list.specs.Joined.{joined};
ghost use Rattle.pp_prog.specs.Sizes as spec;
ghost use Rattle.pp_prog.specs.Sizes.{sorts_in_ctor};
ghost use Rattle.pp_prog.specs.Sorts.{param_sorts};
ghost use Rattle.pp_checks.specs.Plan.{AreOf, IsTallestOf};
ghost use Rattle.pp_checks.specs.Tables as tables;
ghost use Rattle.pp_checks.specs.Tables.{trees_in};

use crate::NoMemory;
use crate::nesting::nestings_of;
use pp_list::{Items, at};
use pp_prog::{Ctor, DataId, Function, Param, Program, Sort, TypeTable};
use std::alloc::Global;

/// The constructors of a datatype. It takes no memory.
pub fn ctors_of(types: &TypeTable, d: DataId) -> &[Ctor]
    ensures { result.now ≡ spec.ctors_of types.now d }
{
    match at(types.datatypes.as_slice(), d.0 as usize) {
        None => &[],
        Some(t) => block(types.ctors.as_slice(), t.first.0 as usize, t.count as usize),
    }
}

/// So many constructors from the first on, as far as there are some.
fn block(ctors: &[Ctor], first: usize, count: usize) -> &[Ctor]
    ensures { result.now ≡ take count (drop first ctors.now) }
{
    let from = first.min(ctors.len());
    let rest = &ctors[from..];
    let to = count.min(rest.len());
    &rest[..to]
}

/// Adds the datatypes among these sorts.
fn add_trees(sorts: &[Sort], found: &mut Items<u32>) -> Result<(), NoMemory>
    ensures { OnOk result (found.new ≡ found.old ++ trees_in sorts.now) }
{
    for s in sorts {
        match *s {
            Sort::Int | Sort::Bool => {}
            Sort::Tree(d) => found.push(d.0)?,
        }
    }
    Ok(())
}

/// The datatypes of the fields of these constructors.
fn trees_of(alloc: Global, ctors: &[Ctor]) -> Result<Items<u32>, NoMemory>
    ensures { IfOk result (λ found. found ≡ trees_in (joined (map sorts_in_ctor ctors.now))) }
{
    let mut found = Items::new(alloc);
    for c in ctors {
        add_trees(c.fields.as_slice(), &mut found)?;
    }
    Ok(found)
}

/// At each datatype's place, the datatypes that its fields have. The only error is want of memory.
pub fn field_table(alloc: Global, types: &TypeTable) -> Result<Items<Items<u32>>, NoMemory>
    ensures { IfOk result (λ table. table ≡ tables.field_table types.now) }
{
    let mut table = Items::new(alloc);
    for d in 0..types.datatypes.len() {
        table.push(trees_of(alloc, ctors_of(types, DataId(d as u32)))?)?;
    }
    Ok(table)
}

/// The greater of two heights; none is above all.
fn greater(a: Option<u64>, b: Option<u64>) -> Option<u64>
    ensures { result ≡ tables.greater a b }
{
    match (a, b) {
        (Some(a), Some(b)) => Some(a.max(b)),
        _ => None,
    }
}

/// The greatest height of a value of the sort, by the depths of the datatypes' fields.
fn height_of(depths: &[Option<u32>], s: Sort) -> Option<u64>
    ensures { result ≡ tables.height_in depths.now s }
{
    match s {
        Sort::Int | Sort::Bool => Some(0),
        Sort::Tree(d) => match at(depths, d.0 as usize) {
            None => None,
            Some(None) => None,
            Some(Some(depth)) => Some(*depth as u64 + 1),
        },
    }
}

/// The greatest height of a value of these parameters' sorts.
fn tallest(depths: &[Option<u32>], params: &[Param]) -> Option<u64>
    ensures { result ≡ tables.tallest_in depths.now (Some 0) (param_sorts params.now) }
{
    let mut most = Some(0);
    for p in params {
        most = greater(most, height_of(depths, p.sort));
    }
    most
}

/// The greatest height of an argument of each function, or none where there is no greatest.
pub(crate) fn tallest_of(alloc: Global, program: &Program) -> Result<Items<Option<u64>>, NoMemory>
    ensures { IfOk result (λ heights. AreOf (IsTallestOf program.now) (length program.now.functions) heights) }
{
    let table = field_table(alloc, program.types())?;
    let depths = nestings_of(alloc, table.as_slice())?;
    let heights = heights_of(alloc, depths.as_slice(), program.functions.as_slice())?;
    Ok(heights)
}

fn heights_of(
    alloc: Global,
    depths: &[Option<u32>],
    functions: &[Function],
) -> Result<Items<Option<u64>>, NoMemory>
    ensures { IfOk result (λ heights. heights ≡ map (tables.tallest_params depths.now) functions.now) }
{
    let mut heights = Items::new(alloc);
    for f in functions {
        heights.push(tallest(depths, f.params.as_slice()))?;
    }
    Ok(heights)
}
