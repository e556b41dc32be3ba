//! Lists of values by what they cost, which is what their values cost together.

ghost use Rattle.std.specs.Prelude.{◌≡◌, IfOk};

use crate::NoMemory;
use crate::levels::Level;
use pp_list::{Items, at};
use pp_prog::{Sort, Value, Values};
use std::alloc::Global;

/// How many lists of the same sorts and cost are made, and how many trees of the same datatype and cost. More are never
/// run.
pub(crate) const MOST_ALIKE: usize = 500;

/// Lists of values.
type ValueLists = Items<Values>;

/// The lists of values of these sorts, each value of at most this height, as far as they were made.
#[derive(Drop)]
pub(crate) struct Lists<'a> {
    sorts: &'a [Sort],
    height: u64,
    // By cost, and then by how many values they have: the values of the last sorts.
    tails: Items<Items<ValueLists>>,
}

impl<'a> Lists<'a> {
    /// No lists yet.
    pub(crate) fn new(alloc: Global, sorts: &'a [Sort], height: u64) -> Lists<'a> {
        Lists {
            sorts,
            height,
            tails: Items::new(alloc),
        }
    }

    /// Makes the lists of the next cost, of values up to that cost. Each takes one from `room`, and with 0 none is
    /// made.
    pub(crate) fn grow(
        &mut self,
        alloc: Global,
        levels: &[Level],
        room: &mut usize,
    ) -> Result<(), NoMemory> {
        let cost = self.tails.len();
        let mut tails = Items::new(alloc);
        tails.push(empty_of(alloc, cost)?)?;
        for count in 0..self.sorts.len() {
            let sort = self.sorts[self.sorts.len() - 1 - count];
            let longer = self.longer(alloc, levels, sort, tails.as_slice(), room)?;
            tails.push(longer)?;
        }
        self.tails.push(tails)
    }

    // The lists of the next cost that begin with a value of this sort before the longest of the tails so far.
    fn longer(
        &self,
        alloc: Global,
        levels: &[Level],
        sort: Sort,
        tails: &[ValueLists],
        room: &mut usize,
    ) -> Result<ValueLists, NoMemory> {
        let count = tails.len().saturating_sub(1);
        let cost = self.tails.len();
        let mut longer = Items::new(alloc);
        for first in 0..levels.len() {
            let values = levels[first].of_sort(sort);
            if first == 0 {
                self.join(alloc, &mut longer, values, lists_at(tails, count), room)?;
            } else if first <= cost {
                let rests = self.rests(cost - first, count);
                self.join(alloc, &mut longer, values, rests, room)?;
            }
        }
        Ok(longer)
    }

    // The lists of this cost of so many of the last sorts; none where they weren't made.
    fn rests(&self, cost: usize, count: usize) -> &[Values] {
        match at(self.tails.as_slice(), cost) {
            Some(tails) => lists_at(tails.as_slice(), count),
            None => &[],
        }
    }

    // Adds each of the values that is low enough before each of the rests.
    fn join(
        &self,
        alloc: Global,
        lists: &mut ValueLists,
        values: &[Value],
        rests: &[Values],
        room: &mut usize,
    ) -> Result<(), NoMemory> {
        if rests.is_empty() {
            return Ok(());
        }
        for value in values {
            if is_full(lists, *room) {
                return Ok(());
            }
            if value.height() <= self.height {
                put_before(alloc, lists, value, rests, room)?;
            }
        }
        Ok(())
    }

    /// The lists of this cost; none where they weren't made.
    pub(crate) fn of_cost(&self, cost: usize) -> &[Values] {
        self.rests(cost, self.sorts.len())
    }
}

/// The lists with so many values; none where there are no such lists.
fn lists_at(tails: &[ValueLists], count: usize) -> &[Values] {
    match at(tails, count) {
        Some(lists) => lists.as_slice(),
        None => &[],
    }
}

/// The lists without values: one, which costs nothing.
fn empty_of(alloc: Global, cost: usize) -> Result<ValueLists, NoMemory> {
    let mut lists = Items::new(alloc);
    if cost == 0 {
        lists.push(Items::new(alloc))?;
    }
    Ok(lists)
}

/// Whether no more lists are to be made beside these, or at all.
fn is_full(lists: &ValueLists, room: usize) -> bool {
    lists.len() >= MOST_ALIKE || room == 0
}

/// Adds the value before each of the rests.
fn put_before(
    alloc: Global,
    lists: &mut ValueLists,
    value: &Value,
    rests: &[Values],
    room: &mut usize,
) -> Result<(), NoMemory> {
    for rest in rests {
        if is_full(lists, *room) {
            return Ok(());
        }
        *room = room.saturating_sub(1);
        lists.push(with_first(alloc, value, rest.as_slice())?)?;
    }
    Ok(())
}

/// The list of the value and the rest.
fn with_first(alloc: Global, first: &Value, rest: &[Value]) -> Result<Values, NoMemory> {
    let mut values = Items::new(alloc);
    values.push(first.copy(alloc)?)?;
    values.append(copies_of(alloc, rest)?)?;
    Ok(values)
}

/// The same values. The only error is want of memory.
pub(crate) fn copies_of(alloc: Global, values: &[Value]) -> Result<Values, NoMemory>
    ensures { IfOk result (λ copies. copies ≡ values.now) }
{
    let mut copies = Items::new(alloc);
    for value in values {
        copies.push(value.copy(alloc)?)?;
    }
    Ok(copies)
}
