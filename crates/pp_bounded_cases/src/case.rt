//! Cases, and how they are read and written.

use anyhow::{Context, Result};
use pp_case_line::CaseLine;
use pp_prog::{DataId, Value};
use std::alloc::Global;

/// Two values of a datatype, spelled by numbers, the height of the trees that are to stand for them, and the choice.
#[derive(Drop)]
pub struct Case {
    pub of: DataId,
    pub height: u32,
    pub left_chosen: bool,
    /// The numbers that spell the first value and the second, the last one first.
    pub numbers: Vec<i32>,
}

impl Case {
    /// The case of a line.
    pub fn read(alloc: Global, line: &str) -> Result<Case> {
        let mut numbers = Vec::new(alloc);
        for word in line.split_whitespace() {
            numbers.push(word.parse::<i32>().context("a number")?)?;
        }
        numbers.reverse();
        let (of, height) = (next(&mut numbers)?, next(&mut numbers)?);
        Ok(Case {
            of: DataId(of),
            height,
            left_chosen: next(&mut numbers)? == 1,
            numbers,
        })
    }
}

/// The last of the numbers, which is taken off.
fn next(numbers: &mut Vec<i32>) -> Result<u32> {
    u32::try_from(numbers.pop().unwrap_or(-1)).context("a number")
}

/// The number that the last word spells, which is taken off.
pub fn number(words: &mut Vec<&str>) -> Result<u32> {
    words.pop().unwrap_or("").parse::<u32>().context("a number")
}

/// Adds the numbers that spell the value, each behind a blank.
pub fn spell(line: &mut CaseLine, value: &Value) {
    line.put(" ");
    match value {
        Value::Int(n) => line.put(n),
        Value::Bool(b) => line.put(u8::from(*b)),
        Value::Tree(c, fields) => {
            line.put(c.0);
            for field in fields.as_slice() {
                spell(line, field);
            }
        }
    }
}
