//! The text of a log.
ghost use Rattle.std.specs.Prelude.{◌≡◌, ◌++◌, IfOk, OnOk};
ghost use Rattle.std.specs.Fmt.{decimal};
ghost use Rattle.pp_refute.specs.LogText.{text_of_log, text_of_lemma, text_of_lit, text_of_number};

use crate::NoMemory;
use pp_clause::{Lemma, Lit, Log};
use std::alloc::Global;

/// The text of the log: a line for each lemma, with its literals in ascending order of variable, each followed by
/// a blank, then `<-`, then a blank and a number for each number of the chain.
pub fn log_text(alloc: Global, log: &Log) -> Result<Vec<u8>, NoMemory>
    ensures { IfOk result (λ text. text.items ≡ text_of_log log.now) }
{
    let mut text = Vec::new(alloc);
    for lemma in log.as_slice() {
        push_lemma(&mut text, lemma)?;
    }
    Ok(text)
}

/// Appends the line of a lemma.
pub fn push_lemma(text: &mut Vec<u8>, lemma: &Lemma) -> Result<(), NoMemory>
    ensures { OnOk result (text.new.items ≡ text.old.items ++ text_of_lemma lemma.now) }
{
    for lit in lemma.clause.lits() {
        push_lit(text, *lit)?;
    }
    text.extend_from_slice(b"<-")?;
    for number in lemma.chain.numbers() {
        push_number(text, *number)?;
    }
    text.push(b'\n')?;
    Ok(())
}

/// Appends a literal and a blank.
fn push_lit(text: &mut Vec<u8>, lit: Lit) -> Result<(), NoMemory>
    ensures { OnOk result (text.new.items ≡ text.old.items ++ text_of_lit lit) }
{
    if !lit.is_positive() {
        text.push(b'-')?;
    }
    push_decimal(text, lit.var())?;
    text.push(b' ')?;
    Ok(())
}

/// Appends a blank and a number of a chain.
fn push_number(text: &mut Vec<u8>, number: u32) -> Result<(), NoMemory>
    ensures { OnOk result (text.new.items ≡ text.old.items ++ text_of_number number) }
{
    text.push(b' ')?;
    push_decimal(text, number)
}

/// Appends the digits of a number.
fn push_decimal(text: &mut Vec<u8>, number: u32) -> Result<(), NoMemory>
    ensures { OnOk result (text.new.items ≡ text.old.items ++ decimal number) }
{
    if number >= 10 {
        push_decimal(text, number / 10)?;
    }
    text.push(b'0' + (number % 10) as u8)?;
    Ok(())
}
