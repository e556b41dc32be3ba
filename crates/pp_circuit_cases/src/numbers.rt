//! What cases are made of: words and numbers.

use pp_case_line::{CaseLine, NoMemory};
use std::alloc::Global;
use std::fmt::Display;

/// The text before the first such character, and that behind it: the whole text and none where there is no such one.
pub fn halves(text: &str, at: char) -> (&str, &str) {
    text.split_once(at).unwrap_or((text, ""))
}

/// The words of a text.
pub fn words<'a>(alloc: Global, text: &'a str) -> Result<Vec<&'a str>, NoMemory> {
    text.split_whitespace().collect(alloc)
}

/// What a word stands for.
pub fn meaning<T: Copy>(table: &[(&str, T)], word: &str) -> Option<T> {
    for (name, value) in table {
        if *name == word {
            return Some(*value);
        }
    }
    None
}

/// The 32 bits of a number, which has a sign or none, and 0 where the word is none.
pub fn number(word: &str) -> u32 {
    match word.parse::<i32>() {
        Ok(number) => number.cast_unsigned(),
        Err(_) => word.parse::<u32>().unwrap_or(0),
    }
}

/// The numbers of the words of a text.
pub fn numbers(alloc: Global, text: &str) -> Result<Vec<u32>, NoMemory> {
    text.split_whitespace().map(number).collect(alloc)
}

/// The number at this place, and 0 where there is none.
pub fn at(numbers: &[u32], place: usize) -> u32 {
    numbers.get(place).copied().unwrap_or(0)
}

/// Adds the values, each behind a blank.
pub fn push_all<T: Display + Copy>(line: &mut CaseLine, values: &[T]) {
    for value in values {
        line.put(" ");
        line.put(*value);
    }
}
