//! The arguments that are tried: all lists of values up to a height, by their numbers.

use anyhow::{Result, bail};
use pp_list::{Items, at};
use pp_prog::{CtorId, DataId, Sort, TypeTable, Value, Values};
use std::alloc::Global;

/// The Ints that are tried.
const INTS: [i32; 4] = [-1, 0, 1, 3];

/// How many lists of values of at most this height have one of each of the sorts, in order.
#[cycle(count)]
pub fn count_lists(table: &TypeTable, sorts: &[Sort], height: u32) -> u64 {
    let mut count = 1u64;
    for sort in sorts {
        count = count.saturating_mul(count_values(table, *sort, height));
    }
    count
}

/// How many values of at most this height have the sort.
#[cycle(count)]
fn count_values(table: &TypeTable, sort: Sort, height: u32) -> u64 {
    match sort {
        Sort::Int => INTS.len() as u64,
        Sort::Bool => 2,
        Sort::Tree(of) => {
            let mut count = 0u64;
            for ctor in 0..table.ctors.len() {
                count = count.saturating_add(count_trees(table, of, ctor, height));
            }
            count
        }
    }
}

/// How many trees of the datatype of at most this height have the constructor.
#[cycle(count)]
fn count_trees(table: &TypeTable, of: DataId, ctor: usize, height: u32) -> u64 {
    match at(table.ctors.as_slice(), ctor) {
        Some(entry) if entry.of.0 == of.0 && height > 0 => {
            count_lists(table, entry.fields.as_slice(), height - 1)
        }
        _ => 0,
    }
}

/// The list at a place among those that `count_lists` counts.
#[cycle(choose)]
pub fn list_at(
    alloc: Global,
    table: &TypeTable,
    sorts: &[Sort],
    height: u32,
    place: u64,
) -> Result<Values> {
    let mut values = Items::new(alloc);
    let mut place = place;
    for sort in sorts {
        let count = count_values(table, *sort, height).max(1);
        values.push(value_at(alloc, table, *sort, height, place % count)?)?;
        place /= count;
    }
    Ok(values)
}

/// The value at a place among those of the sort.
#[cycle(choose)]
fn value_at(
    alloc: Global,
    table: &TypeTable,
    sort: Sort,
    height: u32,
    place: u64,
) -> Result<Value> {
    match sort {
        Sort::Int => Ok(Value::Int(INTS[place as usize % INTS.len()])),
        Sort::Bool => Ok(Value::Bool(place % 2 == 1)),
        Sort::Tree(of) => tree_at(alloc, table, of, height, place),
    }
}

/// The tree at a place among those of the datatype.
#[cycle(choose)]
fn tree_at(alloc: Global, table: &TypeTable, of: DataId, height: u32, place: u64) -> Result<Value> {
    let mut place = place;
    for ctor in 0..table.ctors.len() {
        let count = count_trees(table, of, ctor, height);
        if place < count && height > 0 {
            let sorts = table.ctors.as_slice()[ctor].fields.as_slice();
            let fields = list_at(alloc, table, sorts, height - 1, place)?;
            return Ok(Value::Tree(CtorId(ctor as u32), fields));
        }
        place = place.saturating_sub(count);
    }
    bail!("no such tree")
}
