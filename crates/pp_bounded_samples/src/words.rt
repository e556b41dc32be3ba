//! The words of a line, and the numbers that they spell.

ghost use Rattle.std.specs.Prelude.{◌≤◌, IfOk};

use anyhow::{Result, bail};

/// The word at a place of the line. It is empty where the line has fewer.
pub fn word(line: &str, place: usize) -> &str {
    line.split_whitespace().nth(place).unwrap_or("")
}

/// The number at a place of the line, at least the one and at most the other.
pub fn number(line: &str, place: usize, least: u32, most: u32) -> Result<u32>
    ensures { IfOk result (λ n. (least ≤ n) × (n ≤ most)) }
{
    match word(line, place).parse::<u32>() {
        Ok(number) if least <= number && number <= most => Ok(number),
        _ => bail!("no such number at place {place} of {line}"),
    }
}
