//! Which constructors have values up to a height.

ghost use Rattle.std.specs.Prelude.{◌≡◌, ◌<◌, length, drop, take, IfOk};
ghost use Rattle.pp_prog.specs.Sizes as sizes;
ghost use Rattle.pp_bounded_trees.specs.Possible.{ArePossible, has_value as has_value_spec};
ghost use Rattle.pp_bounded_trees.specs.Possible.{is_possible as is_possible_spec};

use crate::NoMemory;
use pp_list::{Items, at};
use pp_prog::{Ctor, CtorId, DataId, Sort, TypeTable};
use std::alloc::Global;

/// So many constructors from the first on, as far as there are some.
fn block(ctors: &[Ctor], first: usize, count: usize) -> &[Ctor]
    ensures { result.now ≡ take count (drop first ctors.now) }
{
    let from = first.min(ctors.len());
    let rest = &ctors[from..];
    let to = count.min(rest.len());
    &rest[..to]
}

/// The constructors of a datatype.
pub fn ctors_of(table: &TypeTable, of: DataId) -> &[Ctor]
    ensures { result.now ≡ sizes.ctors_of table.now of }
{
    match at(table.datatypes.as_slice(), of.0 as usize) {
        None => &[],
        Some(t) => block(table.ctors.as_slice(), t.first.0 as usize, t.count as usize),
    }
}

/// Whether the sort has a value whose height is at most this.
#[cycle(possible)]
pub fn has_value(table: &TypeTable, sort: Sort, height: u32) -> bool
    ensures { result ≡ has_value_spec table.now height sort }
{
    match sort {
        Sort::Int => true,
        Sort::Bool => true,
        Sort::Tree(of) => {
            if height == 0 {
                return false;
            }
            for ctor in ctors_of(table, of) {
                if is_possible(table, ctor, height - 1) {
                    return true;
                }
            }
            false
        }
    }
}

/// Whether each field of the constructor has a value whose height is at most this.
#[cycle(possible)]
fn is_possible(table: &TypeTable, ctor: &Ctor, height: u32) -> bool
    ensures { result ≡ is_possible_spec (has_value_spec table.now height) ctor.now }
{
    for sort in ctor.fields.as_slice() {
        if !has_value(table, *sort, height) {
            return false;
        }
    }
    true
}

/// The constructors of the datatype whose fields have values of at most this height.
pub fn possible(
    alloc: Global,
    table: &TypeTable,
    of: DataId,
    height: u32,
) -> Result<Items<CtorId>, NoMemory>
    requires { of.0 < length table.now.datatypes }
    ensures { IfOk result (λ cs. ArePossible table.now height of cs) }
{
    let first = table.datatype(of).first.0;
    let ctors = ctors_of(table, of);
    let mut found = Items::new(alloc);
    for place in 0..ctors.len() {
        if is_possible(table, &ctors[place], height) {
            found.push(CtorId(first + place as u32))?;
        }
    }
    Ok(found)
}
