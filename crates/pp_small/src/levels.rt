//! Values by what they cost.
//!
//! The first of `NUMBERS` cost 0, 1 and so on, `false` costs 0 and `true` 1, and a tree 1 more than its fields.

use crate::NoMemory;
use crate::lists::{Lists, MOST_ALIKE, copies_of};
use pp_list::{Items, at};
use pp_prog::{CtorId, DataId, Sort, Value, Values};
use std::alloc::Global;

/// The numbers that are tried, the cheapest first: those at which most claims on numbers turn.
const NUMBERS: [i32; 7] = [0, 1, -1, 2, i32::MIN, i32::MAX, 3];

/// The values of one cost, by their sorts.
#[derive(Drop)]
pub(crate) struct Level {
    ints: Values,
    truths: Values,
    // By the number of the datatype.
    trees: Items<Values>,
}

/// What a constructor can have as fields.
#[derive(Drop)]
pub(crate) struct Fields<'a> {
    pub(crate) ctor: CtorId,
    pub(crate) of: DataId,
    pub(crate) lists: Lists<'a>,
}

impl Level {
    /// The values of this cost, of the first datatypes, so many. The lists of fields are those of lower costs.
    pub(crate) fn new(
        alloc: Global,
        constructors: &[Fields],
        datatypes: usize,
        cost: usize,
    ) -> Result<Level, NoMemory> {
        let mut trees = Items::new(alloc);
        for datatype in 0..datatypes {
            trees.push(trees_of(alloc, constructors, datatype, cost)?)?;
        }
        Ok(Level {
            ints: ints_of(alloc, cost)?,
            truths: truths_of(alloc, cost)?,
            trees,
        })
    }

    /// The values of the sort.
    pub(crate) fn of_sort(&self, sort: Sort) -> &[Value] {
        match sort {
            Sort::Int => self.ints.as_slice(),
            Sort::Bool => self.truths.as_slice(),
            Sort::Tree(of) => match at(self.trees.as_slice(), of.0 as usize) {
                Some(trees) => trees.as_slice(),
                None => &[],
            },
        }
    }
}

/// The number of this cost, where there is one.
fn ints_of(alloc: Global, cost: usize) -> Result<Values, NoMemory> {
    let mut ints = Items::new(alloc);
    if let Some(number) = at(&NUMBERS, cost) {
        ints.push(Value::Int(*number))?;
    }
    Ok(ints)
}

/// The truth value of this cost, where there is one.
fn truths_of(alloc: Global, cost: usize) -> Result<Values, NoMemory> {
    let mut truths = Items::new(alloc);
    if cost <= 1 {
        truths.push(Value::Bool(cost == 1))?;
    }
    Ok(truths)
}

/// The trees of this cost of the datatype.
fn trees_of(
    alloc: Global,
    constructors: &[Fields],
    datatype: usize,
    cost: usize,
) -> Result<Values, NoMemory> {
    let mut trees = Items::new(alloc);
    if cost > 0 {
        for fields in constructors {
            if fields.of.0 as usize == datatype {
                add_trees(alloc, &mut trees, fields, cost - 1)?;
            }
        }
    }
    Ok(trees)
}

/// Adds the trees of a constructor whose fields cost so much.
fn add_trees(
    alloc: Global,
    trees: &mut Values,
    fields: &Fields,
    cost: usize,
) -> Result<(), NoMemory> {
    for list in fields.lists.of_cost(cost) {
        if trees.len() >= MOST_ALIKE {
            return Ok(());
        }
        trees.push(Value::Tree(fields.ctor, copies_of(alloc, list.as_slice())?))?;
    }
    Ok(())
}
