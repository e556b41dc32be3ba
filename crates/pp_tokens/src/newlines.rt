//! The second pass: the line feeds that end a statement.

ghost use Rattle.std.specs.Prelude.{◌≡◌, ◌++◌, IfOk, OnOk, [], false, reverse, None};
ghost use Rattle.pp_tokens.specs.Newlines.{is_newline, can_end, declares, can_begin, next_kind, enabled, opened_by};
ghost use Rattle.pp_tokens.specs.Newlines.{is_closed_by, inside, first_feed, kept, newlines};

use crate::token::{Bracket, Operator, Reserved, Token, TokenKind};
use std::alloc::{AllocError, Global};

/// A stretch of the text in which newlines are enabled (braces) or not.
#[derive(Clone, Copy)]
pub(crate) enum Region {
    Round,
    Square,
    Brace,
    Case,
}

fn is_newline(kind: TokenKind) -> bool
    ensures { result ≡ is_newline kind }
{
    matches!(kind, TokenKind::Newline)
}

/// Whether a statement can end with the token.
fn can_end(kind: TokenKind) -> bool
    ensures { result ≡ can_end kind }
{
    match kind {
        TokenKind::Name | TokenKind::Number(_) | TokenKind::Hex(_) | TokenKind::Hole => true,
        TokenKind::Word(word) => matches!(
            word,
            Reserved::False
                | Reserved::Null
                | Reserved::Return
                | Reserved::This
                | Reserved::True
                | Reserved::Type
        ),
        TokenKind::Mark(mark) => matches!(
            mark,
            Bracket::CloseRound | Bracket::CloseSquare | Bracket::CloseBrace
        ),
        _ => false,
    }
}

/// Whether the token after `case` makes it the head of a declaration.
fn declares(next: TokenKind) -> bool
    ensures { result ≡ declares next }
{
    matches!(
        next,
        TokenKind::Word(Reserved::Class) | TokenKind::Word(Reserved::Object)
    )
}

/// Whether a statement can begin with the token, before the next one.
fn can_begin(kind: TokenKind, next: TokenKind) -> bool
    ensures { result ≡ can_begin kind next }
{
    match kind {
        TokenKind::Word(Reserved::Case) => declares(next),
        TokenKind::Word(word) => !matches!(
            word,
            Reserved::Catch
                | Reserved::Else
                | Reserved::Extends
                | Reserved::Finally
                | Reserved::ForSome
                | Reserved::Match
                | Reserved::With
                | Reserved::Yield
        ),
        TokenKind::Mark(mark) => matches!(mark, Bracket::OpenRound | Bracket::OpenBrace),
        TokenKind::Op(operator) => !matches!(
            operator,
            Operator::Colon | Operator::Assign | Operator::Arrow
        ),
        TokenKind::Newline | TokenKind::End => false,
        _ => true,
    }
}

/// The kind of the first token that is no line feed.
#[tactic(auto, using(crate::proofs::NextKind::next_kind_steps))]
fn next_kind(tokens: &[Token]) -> TokenKind
    ensures { result ≡ next_kind tokens.now }
{
    for token in tokens {
        if !is_newline(token.kind) {
            return token.kind;
        }
    }
    TokenKind::End
}

/// Whether newlines are enabled.
fn enabled(regions: &[Region]) -> bool
    ensures { result ≡ enabled (reverse regions.now) }
{
    match regions.last() {
        None => true,
        Some(region) => matches!(region, Region::Brace),
    }
}

/// The region that the token opens, before the next one.
fn opened_by(kind: TokenKind, next: TokenKind) -> Option<Region>
    ensures { result ≡ opened_by kind next }
{
    match kind {
        TokenKind::Mark(Bracket::OpenRound) => Some(Region::Round),
        TokenKind::Mark(Bracket::OpenSquare) => Some(Region::Square),
        TokenKind::Mark(Bracket::OpenBrace) => Some(Region::Brace),
        TokenKind::Word(Reserved::Case) => {
            if declares(next) {
                None
            } else {
                Some(Region::Case)
            }
        }
        _ => None,
    }
}

/// Whether the region ends with the token.
fn is_closed_by(region: Region, kind: TokenKind) -> bool
    ensures { result ≡ is_closed_by region kind }
{
    match region {
        Region::Round => matches!(kind, TokenKind::Mark(Bracket::CloseRound)),
        Region::Square => matches!(kind, TokenKind::Mark(Bracket::CloseSquare)),
        Region::Brace => matches!(kind, TokenKind::Mark(Bracket::CloseBrace)),
        Region::Case => matches!(kind, TokenKind::Op(Operator::Arrow)),
    }
}

/// Follows the regions over a token.
fn enter(regions: &mut Vec<Region>, kind: TokenKind, next: TokenKind) -> Result<(), AllocError>
    ensures { OnOk result (reverse regions.new.items ≡ inside kind next (reverse regions.old.items)) }
{
    match opened_by(kind, next) {
        Some(region) => regions.push(region)?,
        None => {
            if let Some(region) = regions.pop() {
                if !is_closed_by(region, kind) {
                    regions.push(region)?;
                }
            }
        }
    }
    Ok(())
}

/// The first of the line feeds since the last token.
fn first_feed(waiting: Option<Token>, token: Token) -> Option<Token>
    ensures { result ≡ first_feed waiting token }
{
    match waiting {
        None => Some(token),
        Some(first) => Some(first),
    }
}

/// Puts the token behind the others, and before it the newline that is waiting, if it is wanted.
fn put(
    out: &mut Vec<Token>,
    wanted: bool,
    waiting: Option<Token>,
    token: Token,
) -> Result<(), AllocError>
    ensures { OnOk result (out.new.items ≡ out.old.items ++ kept wanted waiting token) }
{
    if wanted {
        if let Some(newline) = waiting {
            out.push(newline)?;
        }
    }
    out.push(token)?;
    Ok(())
}

/// The tokens without the line feeds that end no statement.
#[tactic(auto, using(crate::proofs::Feeds::newlines_steps))]
pub(crate) fn newlines(alloc: Global, raw: &[Token]) -> Result<Vec<Token>, AllocError>
    ensures { IfOk result (λ v. v.items ≡ newlines [] false None raw.now) }
{
    let mut out = Vec::new(alloc);
    let mut regions = Vec::new(alloc);
    let mut ended = false;
    let mut waiting = None;
    for (i, token) in raw.iter().enumerate() {
        let token = *token;
        if is_newline(token.kind) {
            waiting = first_feed(waiting, token);
        } else {
            let next = next_kind(&raw[i + 1..]);
            let begins = can_begin(token.kind, next);
            let enabled = enabled(&regions);
            put(&mut out, ended && begins && enabled, waiting, token)?;
            enter(&mut regions, token.kind, next)?;
            ended = can_end(token.kind);
            waiting = None;
        }
    }
    Ok(out)
}
