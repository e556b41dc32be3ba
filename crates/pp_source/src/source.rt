//! One source.

ghost use Rattle.std.specs.Prelude.{◌≡◌, ◌≤◌, All, IfErr, IfOk, length};
ghost use Rattle.std.specs.Str.{IsUtf8};
ghost use Rattle.pp_text.specs.Limits.{most_bytes};
ghost use Rattle.pp_tokens.specs.Tokens.{IsCause, spelled, tokens_of};
ghost use Rattle.pp_tokens.specs.Spans.{FaultBegins, IsSpan};
ghost use Rattle.pp_tree.specs.Shown.{unit_of};
ghost use Rattle.pp_parse.specs.Spelled.{IsWhy, StandsAtToken};
ghost use Rattle.pp_source.specs.Refuses.{Refuses};
ghost use Rattle.pp_source.specs.Told.{OnLine};
ghost use Rattle.pp_source.specs.Units.{IsUnitOf};

use crate::refusal::{Refusal, faulty, left_out};
use bumpalo::Bump;
use pp_parse::{ParseFault, parse};
use pp_print::{SourceFault, not_utf8_line};
use pp_text::{Text, TextFault};
use pp_tokens::{LexFault, Token, tokens};
use pp_tree::Unit;
use std::alloc::Global;

/// A source that is read: its text, and the unit that it spells, which lies in the arena.
#[derive(Drop)]
pub struct Source<'a> {
    /// The text.
    pub text: Text,
    /// The unit.
    pub unit: Unit<'a>,
}

/// Reads the source with this number, from 1: as a text, as tokens, as a unit no tree of which is higher than 64.
///
/// # Errors
/// `Line` with the line that says why the source is refused, at its place. `Memory` for want of memory. What was read
/// of the unit stays in the arena until its reset.
pub fn read<'a>(
    alloc: Global,
    arena: &'a Bump,
    bytes: &[u8],
    number: u32,
) -> Result<Source<'a>, Refusal>
    requires { length bytes.now ≤ most_bytes }
    ensures text { IfOk result (λ source. source.text ≡ bytes.now) }
    ensures unit { IfOk result (λ source. IsUnitOf bytes.now (unit_of source.unit)) }
    ensures refused { IfErr result (λ refusal. OnLine refusal (Refuses number bytes.now)) }
{
    let text = text_of(alloc, bytes, number)?;
    let tokens = tokens_of_text(alloc, &text, number)?;
    let unit = unit_of_tokens(alloc, arena, &text, &tokens, number)?;
    Ok(Source { text, unit })
}

fn text_of(alloc: Global, bytes: &[u8], number: u32) -> Result<Text, Refusal>
    requires { length bytes.now ≤ most_bytes }
    ensures same { IfOk result (λ text. text ≡ bytes.now) }
    ensures utf8 { IfOk result (λ _. IsUtf8 bytes.now) }
    ensures refused { IfErr result (λ refusal. OnLine refusal (Refuses number bytes.now)) }
{
    match Text::read(alloc, bytes) {
        Ok(text) => Ok(text),
        Err(TextFault::NotUtf8(at)) => Err(Refusal::Line(not_utf8_line(alloc, at, number)?)),
        Err(TextFault::Memory) => Err(Refusal::Memory),
    }
}

fn tokens_of_text(alloc: Global, text: &Text, number: u32) -> Result<Vec<Token>, Refusal>
    requires { IsUtf8 text.now }
    ensures cut { IfOk result (λ tokens. tokens_of text.now ≡ spelled tokens.items) }
    ensures spans { IfOk result (λ tokens. All (IsSpan text.now) tokens.items) }
    ensures refused { IfErr result (λ refusal. OnLine refusal (Refuses number text.now)) }
{
    match tokens(alloc, text) {
        Ok(tokens) => Ok(tokens),
        Err(fault) => Err(lexical(alloc, fault, text, number)),
    }
}

// The refusal for the first lexical fault.
fn lexical(alloc: Global, fault: LexFault, text: &Text, number: u32) -> Refusal
    requires utf8 { IsUtf8 text.now }
    requires first { IsCause fault (tokens_of text.now) }
    requires begins { FaultBegins text.now fault }
    ensures { OnLine result (Refuses number text.now) }
{
    match fault {
        LexFault::BadChar(at) => faulty(alloc, SourceFault::BadCharacter, text, number, at),
        LexFault::BadNumber(at) => faulty(alloc, SourceFault::BadNumber, text, number, at),
        LexFault::OpenComment(at) => faulty(alloc, SourceFault::OpenComment, text, number, at),
        LexFault::Memory => Refusal::Memory,
    }
}

fn unit_of_tokens<'a>(
    alloc: Global,
    arena: &'a Bump,
    text: &Text,
    tokens: &[Token],
    number: u32,
) -> Result<Unit<'a>, Refusal>
    requires utf8 { IsUtf8 text.now }
    requires cut { tokens_of text.now ≡ spelled tokens.now }
    requires spans { All (IsSpan text.now) tokens.now }
    ensures unit { IfOk result (λ unit. IsUnitOf text.now (unit_of unit)) }
    ensures refused { IfErr result (λ refusal. OnLine refusal (Refuses number text.now)) }
{
    match parse(alloc, arena, text, tokens) {
        Ok(unit) => Ok(unit),
        Err(fault) => Err(unparsed(alloc, fault, text, tokens, number)),
    }
}

// The refusal for what the parser refuses.
fn unparsed(alloc: Global, fault: ParseFault, text: &Text, tokens: &[Token], number: u32) -> Refusal
    requires utf8 { IsUtf8 text.now }
    requires cut { tokens_of text.now ≡ spelled tokens.now }
    requires spans { All (IsSpan text.now) tokens.now }
    requires why { IsWhy fault text.now tokens.now }
    requires at_token { StandsAtToken fault tokens.now }
    ensures { OnLine result (Refuses number text.now) }
{
    match fault {
        ParseFault::Syntax(at) => faulty(alloc, SourceFault::Syntax, text, number, at),
        ParseFault::TooDeep(at) => faulty(alloc, SourceFault::TooDeep, text, number, at),
        ParseFault::Unsupported(name, at) => left_out(alloc, name.as_str(), text, number, at),
        ParseFault::Memory => Refusal::Memory,
    }
}
