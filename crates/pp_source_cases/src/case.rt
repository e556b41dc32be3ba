//! The cases of a file, one a line, and the words of a case, which blanks divide.

use pp_case_line::NoMemory;
use std::alloc::Global;

/// The lines of a text.
pub fn lines(alloc: Global, text: &str) -> Result<Vec<&str>, NoMemory> {
    text.lines().collect(alloc)
}

/// The parts of a line, with `\s` between.
pub fn parts(alloc: Global, line: &str) -> Result<Vec<&str>, NoMemory> {
    line.split("\\s").collect(alloc)
}

/// The words of a text.
pub fn words(alloc: Global, text: &str) -> Result<Vec<&str>, NoMemory> {
    text.split_whitespace().map(meant).collect(alloc)
}

/// What a word stands for: `''` for the empty word.
fn meant(word: &str) -> &str {
    match word {
        "''" => "",
        other => other,
    }
}

/// The word of a case at this place, or none.
pub fn word(case: &str, place: usize) -> &str {
    meant(case.split_whitespace().nth(place).unwrap_or(""))
}

/// The number that a word tells, or 0.
pub fn size(word: &str) -> usize {
    word.parse::<usize>().unwrap_or(0)
}

/// The number of a case at this place.
pub fn number(case: &str, place: usize) -> usize {
    size(word(case, place))
}

/// The number at this place, of 32 bits.
pub fn small(case: &str, place: usize) -> u32 {
    word(case, place).parse::<u32>().unwrap_or(0)
}
