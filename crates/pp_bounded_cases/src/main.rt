//! Tries bounded trees on pairs of values, one a line of standard input, and prints what the domain makes of them. What
//! the answers must be was worked out apart from the program, by a script that takes each pair of values up to a height
//! and compares, searches and chooses in lists: `stdout` has it.
//!
//! A line has the number of a datatype of the samples, a height, 1 or 0 for a choice, and the two values. A value is
//! spelled by numbers: a number by itself, a truth value by 1 or 0, and a tree by the number of its constructor with
//! its fields behind it. Two trees of which nothing is known but their height are made, and the solver is asked to
//! choose the inputs so that these two values are what they stand for: by `is_ctor` and `field` for each constructor of
//! the values, and by the literals of the numbers and truth values below.
//!
//! The answer is `none` where the inputs can't be chosen so. Else it is what is read of the first tree and of the
//! second, whether they are equal, whether the first is below the second, what is read of the choice between them, and
//! then the parts of the first tree and of the choice: for each constructor of the datatype whether the tree has it,
//! and behind the one that it has what is read of its fields, each in brackets. It is an error where the values that
//! are read compare otherwise by themselves, the choice isn't the one of them that was asked for, or one is too high.
//!
//! A line `CASE CALL TIMES` makes an input for a choice, two unknown trees and the call so many times, and prints how
//! many gates there were before the call and how many it added. The cases are `lists` (lists of numbers at height 6)
//! and `wide` (four constructors with three recursive fields at height 4), the calls `unknown` (the trees alone),
//! `equal`, `below`, `merge` and `read`.
//!
//! A line `named CALL ..` makes calls of named trees over the same datatypes, one after another, each with its
//! arguments behind it. Each gives a symbol, and these are numbered from 0: `number` (one of which nothing is known),
//! `constant N`, `unknown D`, `construct C X ..` (the fields), `has T C` (whether the tree T has the constructor C),
//! `field T C P`, `merge L T U`, `same T U` (trees), `equal X Y` (numbers) and `below T U`. `ask L B` among them asks
//! that the literal L be true, or false where B is 0. The answer has the gates and the looks that each call added, and
//! at the end `sat` or `unsat`: whether what is asked can hold together with the domain's condition. What it must be
//! follows from the theory of datatypes: constructors are disjoint and injective, each tree is its constructor over its
//! fields, no tree lies below itself, and fields of other constructors are 0, false or the first tree. The gates were
//! counted by a script that makes the same circuits.
#![tactic(auto)]

mod calls;
mod case;
mod found;
mod measuring;
mod named;
mod registers;
mod showing;
mod trying;

ghost use Rattle.pp_bounded_samples.specs.Sample.{IsSample};

use anyhow::Result;
use pp_bounded_samples::table::sample_types;
use pp_bounded_samples::words::word;
use pp_prog::TypeTable;
use std::alloc::Global;
use std::io::{BufRead, BufReader};

/// The answer to a line.
fn answer(alloc: Global, table: &TypeTable, line: &str) -> Result<String>
    requires { IsSample table.now }
{
    match word(line, 0) {
        "named" => named::answer(alloc, table, line),
        "lists" | "wide" => measuring::measure(alloc, table, line),
        _ => trying::answer(alloc, table, line),
    }
}

fn main(rt: HostRuntime) -> Result<()> {
    let alloc = rt.alloc();
    let table = sample_types(alloc)?;
    for line in BufReader::new(alloc, rt.reader())?.lines(alloc) {
        let line = line?;
        let answer = answer(alloc, &table, line.as_str())?;
        // A value is spelled with a blank before it, also where it is the first of its line.
        println!(rt; "{}", answer.as_str().trim_start())?;
    }
    Ok(())
}
