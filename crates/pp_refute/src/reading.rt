//! Reads the text of a log.
ghost use Rattle.std.specs.Prelude.{ℕ, ◌≡◌, ◌≢◌, ◌==◌, false, List, All, IfOk, IfErr, IfSome, IfNone};
ghost use Rattle.std.specs.List.{list_any};
ghost use Rattle.pp_clause.specs.declared.log.Lemma.{Lemma};
ghost use Rattle.pp_clause.specs.Log.{IsLemma};
ghost use Rattle.pp_refute.specs.LogText.{text_of_lemma, text_of_log};
ghost use Rattle.pp_refute.specs.Fault.{IsCause};
ghost use Rattle.pp_refute.specs.Line.{IsFirstLine, has_newline};

use crate::NoMemory;
use crate::fault::LogFault;
use crate::scan::Reader;
use crate::writing::push_lemma;
use pp_clause::{Lemma, Log};
use std::alloc::Global;

/// The log whose text the bytes are. The empty text is the log without lemmas.
///
/// `Syntax` comes exactly where the bytes are no log text, with the first line that is wrong, from 1.
pub fn read_log(alloc: Global, bytes: &[u8]) -> Result<Log, LogFault>
    ensures text { IfOk result (λ log. text_of_log log ≡ bytes.now) }
    ensures only { IfOk result
        (λ log. (other : List Lemma) → All IsLemma other → text_of_log other ≡ bytes.now → other ≡ log) }
    ensures cause { IfErr result (IsCause bytes.now) }
{
    let mut log = Log::new(alloc);
    let mut rest = bytes;
    let mut number: u64 = 1;
    while !rest.is_empty() {
        let Some((line, after)) = first_line(rest) else {
            return Err(LogFault::Syntax(number));
        };
        let Some(lemma) = lemma_of(alloc, line)? else {
            return Err(LogFault::Syntax(number));
        };
        log.push(lemma)?;
        rest = after;
        number += 1;
    }
    Ok(log)
}

/// The first line with its newline, and what follows it. There is none where no newline stands there.
fn first_line(bytes: &[u8]) -> Option<(&[u8], &[u8])>
    ensures some { IfSome result (λ p. IsFirstLine bytes.now p.0.now p.1.now) }
    ensures none { IfNone result (has_newline bytes.now ≡ false) }
{
    for place in 0..bytes.len() {
        if bytes[place] == b'\n' {
            return Some((&bytes[..place + 1], &bytes[place + 1..]));
        }
    }
    None
}

/// The lemma whose text the line is. It is read leniently, and the line must be what its lemma is written as.
fn lemma_of(alloc: Global, line: &[u8]) -> Result<Option<Lemma>, NoMemory>
    ensures text { IfOk result (λ o. IfSome o (λ m. text_of_lemma m ≡ line.now)) }
    ensures lemma { IfOk result (λ o. IfSome o IsLemma) }
    ensures none { IfOk result (λ o. IfNone o ((m : Lemma) → IsLemma m → text_of_lemma m ≢ line.now)) }
{
    let mut reader = Reader::new(alloc);
    for byte in line {
        reader.take(*byte)?;
    }
    let Some(lemma) = reader.lemma(alloc)? else {
        return Ok(None);
    };
    let mut text = Vec::new(alloc);
    push_lemma(&mut text, &lemma)?;
    if text.as_slice() == line {
        Ok(Some(lemma))
    } else {
        Ok(None)
    }
}
