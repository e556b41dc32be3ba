//! The words of a line, read a byte at a time. What isn't a number or a sign ends a word: whether the line is as it
//! must be is found out when it is written again.
ghost use Rattle.std.specs.Prelude.{ℕ, ◌≡◌, ◌++◌, ◌≤◌, Some, not, OnOk, IfOk, IfSome, IfNone, [], Any, ◌⊎◌};
ghost use Rattle.pp_clause.specs.Clause.{HasBoth, SameLiterals};
ghost use Rattle.pp_clause.specs.Log.{IsLemma};
ghost use Rattle.pp_refute.specs.Scan.{scan_start, scan_step, scan_digit, word_end, lits_of, numbers_of};

use crate::NoMemory;
use pp_clause::{Chain, Clause, Lemma, Lit};
use std::alloc::Global;
use std::marker::Model;

/// What is read of a line so far.
#[derive(Drop)]
pub struct Reader {
    lits: Vec<Lit>,
    numbers: Vec<u32>,
    arrow: bool,
    negative: bool,
    pending: Option<u64>,
}

impl Model for Reader {
    ghost use Rattle.pp_refute.specs.Scan.{Scan};

    ghost Value = { Scan };

    ghost view = { λ r. record {
      lits = r.lits.items;
      numbers = r.numbers.items;
      arrow = r.arrow;
      negative =
          r.negative;
      pending = r.pending;
    } };
}

impl Reader {
    /// Nothing is read.
    pub fn new(alloc: Global) -> Reader
        ensures { result ≡ scan_start }
    {
        Reader {
            lits: Vec::new(alloc),
            numbers: Vec::new(alloc),
            arrow: false,
            negative: false,
            pending: None,
        }
    }

    /// Reads one byte.
    pub fn take(&mut self, byte: u8) -> Result<(), NoMemory>
        ensures { OnOk result (self.new ≡ scan_step self.old byte) }
    {
        match byte {
            b'0'..=b'9' => self.take_digit(byte - b'0'),
            b'-' => self.negative = true,
            b'<' => self.arrow = true,
            _ => self.end_word()?,
        }
        Ok(())
    }

    /// Reads a digit.
    fn take_digit(&mut self, digit: u8)
        ensures { self.new ≡ scan_digit self.old digit }
    {
        let number = match self.pending {
            None => digit as u64,
            Some(number) if number < 1 << 32 => number * 10 + digit as u64,
            Some(number) => number,
        };
        self.pending = Some(number);
    }

    /// Ends a word: it is a literal before the arrow, and a number of the chain after it.
    fn end_word(&mut self) -> Result<(), NoMemory>
        ensures { OnOk result (self.new ≡ word_end self.old) }
    {
        if self.arrow {
            push_number(&mut self.numbers, self.pending)?;
        } else {
            push_lit(&mut self.lits, self.pending, self.negative)?;
        }
        self.negative = false;
        self.pending = None;
        Ok(())
    }

    /// The lemma of the literals and numbers that are read. There is none where a literal and its negation both
    /// stand there, or the numbers are no chain.
    pub fn lemma(&self, alloc: Global) -> Result<Option<Lemma>, NoMemory>
        ensures none { IfOk result
            (λ o. IfNone o (HasBoth self.now.lits ⊎ ((self.now.numbers ≡ []) ⊎ Any (λ n. n ≡ 0) self.now.numbers))) }
        ensures clause { IfOk result (λ o. IfSome o (λ m. SameLiterals m.clause self.now.lits)) }
        ensures chain { IfOk result (λ o. IfSome o (λ m. m.chain ≡ self.now.numbers)) }
        ensures lemma { IfOk result (λ o. IfSome o IsLemma) }
    {
        let Some(clause) = Clause::of(alloc, &self.lits)? else {
            return Ok(None);
        };
        let Some(chain) = Chain::of(alloc, &self.numbers)? else {
            return Ok(None);
        };
        Ok(Some(Lemma { clause, chain }))
    }
}

/// Appends the number of a word, if it has one, as a literal. One that is no variable is left out.
fn push_lit(lits: &mut Vec<Lit>, number: Option<u64>, negative: bool) -> Result<(), NoMemory>
    ensures { OnOk result (lits.new.items ≡ lits.old.items ++ lits_of number negative) }
{
    if let Some(number) = number {
        if 1 <= number && number <= 1 << 30 {
            lits.push(Lit::new(number as u32, !negative))?;
        }
    }
    Ok(())
}

/// Appends the number of a word, if it has one. One that is too large is left out.
fn push_number(numbers: &mut Vec<u32>, number: Option<u64>) -> Result<(), NoMemory>
    ensures { OnOk result (numbers.new.items ≡ numbers.old.items ++ numbers_of number) }
{
    if let Some(number) = number {
        if number < 1 << 32 {
            numbers.push(number as u32)?;
        }
    }
    Ok(())
}
