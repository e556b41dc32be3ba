//! The matches that are measured, over the datatypes of `data/coverage.scala`, which are known by their places.

ghost use Rattle.std.specs.Prelude.{◌<◌};

use crate::coverage::patterns::{
    FIELDS, GRID, Looks, PAIR, PAIRS, ROW, WIDE, add_tree, beside, tree,
};
use pp_cover::NoMemory;
use pp_list::Boxed;
use pp_prog::{DataId, Pattern, Patterns, Sort};
use std::alloc::Global;

/// How many constructors the datatype of many has.
const WIDE_CTORS: u32 = 64;

/// Adds the cases of the match of this name and size, whose sort is given out. Another name is a match of a number
/// without cases.
pub fn add_cases(
    alloc: Global,
    patterns: &mut Patterns,
    case: &str,
    size: u32,
) -> Result<Sort, NoMemory> {
    match case {
        "wide" => wide(alloc, patterns, size),
        "literals" => literals(patterns, size),
        "booleans" => booleans(alloc, patterns, size),
        "pairs" => pairs(alloc, patterns, size),
        "pigeons" => pigeons(alloc, patterns, size),
        "names" => names(alloc, patterns, size),
        "no_rows" => Ok(Sort::Tree(DataId(ROW))),
        _ => Ok(Sort::Int),
    }
}

/// Cases that tell the constructors apart in turn, and for each its first three fields.
fn wide(alloc: Global, patterns: &mut Patterns, size: u32) -> Result<Sort, NoMemory> {
    for number in 0..size {
        let looks = beside(0, 3, number / WIDE_CTORS);
        add_tree(alloc, patterns, WIDE + number % WIDE_CTORS, looks)?;
    }
    Ok(Sort::Tree(DataId(WIDE)))
}

/// Numbers from 0 on, and a wildcard.
fn literals(patterns: &mut Patterns, size: u32) -> Result<Sort, NoMemory> {
    for n in 0..size.min(i32::MAX as u32) {
        patterns.push(Pattern::Int(n as i32))?;
    }
    patterns.push(Pattern::Any)?;
    Ok(Sort::Int)
}

/// Each truth value of a row is true in turn, or all are false.
fn booleans(alloc: Global, patterns: &mut Patterns, size: u32) -> Result<Sort, NoMemory> {
    let count = size.min(FIELDS);
    for place in 0..count {
        add_tree(alloc, patterns, ROW, beside(place, 1, 1))?;
    }
    add_tree(alloc, patterns, ROW, beside(0, count, 0))?;
    Ok(Sort::Tree(DataId(ROW)))
}

/// Both of one pair after another are true, or one of the last pair is false.
fn pairs(alloc: Global, patterns: &mut Patterns, size: u32) -> Result<Sort, NoMemory> {
    let last = 2 * (FIELDS - 1);
    for number in 0..size {
        add_tree(
            alloc,
            patterns,
            PAIRS,
            beside(2 * (number % FIELDS), 2, 0b11),
        )?;
    }
    add_tree(alloc, patterns, PAIRS, beside(last, 2, 0b01))?;
    add_tree(alloc, patterns, PAIRS, beside(last, 1, 0))?;
    Ok(Sort::Tree(DataId(PAIRS)))
}

/// Some pigeon sits in no hole, or two sit in one: there is one pigeon more than holes. A pigeon is a row of the grid.
fn pigeons(alloc: Global, patterns: &mut Patterns, size: u32) -> Result<Sort, NoMemory> {
    let holes = size.min(FIELDS - 1);
    for pigeon in 0..holes + 1 {
        for hole in 0..holes {
            share(alloc, patterns, pigeon, hole)?;
        }
        add_tree(alloc, patterns, GRID, beside(FIELDS * pigeon, holes, 0))?;
    }
    Ok(Sort::Tree(DataId(GRID)))
}

/// The pigeon sits in the hole with an earlier one.
fn share(alloc: Global, patterns: &mut Patterns, pigeon: u32, hole: u32) -> Result<(), NoMemory>
    requires pigeon { pigeon < 16 }
    requires hole { hole < 16 }
{
    for other in 0..pigeon {
        let both = Looks {
            first: FIELDS * other + hole,
            step: FIELDS * (pigeon - other),
            count: 2,
            digits: 0b11,
        };
        add_tree(alloc, patterns, GRID, both)?;
    }
    Ok(())
}

/// A pair whose first value is true, or false, each under so many names.
fn names(alloc: Global, patterns: &mut Patterns, size: u32) -> Result<Sort, NoMemory> {
    for digit in [1, 0] {
        let pair = tree(alloc, PAIR, beside(0, 1, digit))?;
        patterns.push(named(alloc, pair, size)?)?;
    }
    Ok(Sort::Tree(DataId(PAIR)))
}

/// The pattern under so many names.
fn named(alloc: Global, pattern: Pattern, size: u32) -> Result<Pattern, NoMemory> {
    let mut pattern = pattern;
    for _ in 0..size {
        pattern = Pattern::Bind(Boxed::new(alloc, pattern)?);
    }
    Ok(pattern)
}
