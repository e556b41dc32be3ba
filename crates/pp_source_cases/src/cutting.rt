//! How sources are cut into tokens, and how these print: behind its offset a name as it stands, `'case` for a reserved
//! word, `#7` and `$7` for a decimal and a hexadecimal number, an operator or a mark as it stands, HOLE, and NL and END
//! with their line and column. Where a token stands at other characters than its own, these are told too.

use crate::adding::{push_at, push_number, push_size, push_word};
use pp_case_line::CaseLine;
use pp_text::{MOST_BYTES, Text, TextFault};
use pp_tokens::{LexFault, Token, TokenKind, tokens};
use std::alloc::Global;

/// Adds what a source is cut into; tokens may be counted alone.
pub fn push_cut(out: &mut CaseLine, alloc: Global, source: &[u8], counted: bool) {
    if source.len() > MOST_BYTES {
        return out.put("too long");
    }
    match Text::read(alloc, source) {
        Ok(text) => push_cut_text(out, alloc, &text, counted),
        Err(TextFault::NotUtf8(at)) => push_number(out, "not utf-8 at ", at),
        Err(TextFault::Memory) => out.put("out of memory"),
    }
}

/// Adds what a text is cut into.
fn push_cut_text(out: &mut CaseLine, alloc: Global, text: &Text, counted: bool) {
    match tokens(alloc, text) {
        Ok(tokens) if counted => push_size(out, "", tokens.len()),
        Ok(tokens) => return push_tokens(out, text, &tokens),
        Err(fault) => return push_fault(out, fault),
    }
    out.put(" tokens");
}

fn push_fault(out: &mut CaseLine, fault: LexFault) {
    match fault {
        LexFault::BadChar(at) => push_number(out, "bad character at ", at),
        LexFault::BadNumber(at) => push_number(out, "bad number at ", at),
        LexFault::OpenComment(at) => push_number(out, "open comment at ", at),
        LexFault::Memory => out.put("out of memory"),
    }
}

/// Adds tokens of the text.
fn push_tokens(out: &mut CaseLine, text: &Text, tokens: &[Token]) {
    out.put("tokens");
    for token in tokens {
        push_at(out, token.from);
        push_token(out, text, token);
    }
}

/// The characters where a token stands.
fn piece<'a>(source: &'a str, token: &Token) -> &'a str {
    match source
        .as_bytes()
        .get(token.from as usize..token.to as usize)
    {
        Some(bytes) => str::from_utf8(bytes).unwrap_or("half a character"),
        None => "nothing",
    }
}

/// Adds a token.
fn push_token(out: &mut CaseLine, text: &Text, token: &Token) {
    let piece = piece(text.as_str(), token);
    match token.kind {
        TokenKind::Name => out.put(piece),
        TokenKind::Number(value) => push_number(out, "#", value),
        TokenKind::Hex(value) => push_number(out, "$", value),
        TokenKind::Word(word) => push_spelled(out, "'", word.text(), piece),
        TokenKind::Op(operator) => push_spelled(out, "", operator.text(), piece),
        TokenKind::Mark(mark) => push_spelled(out, "", mark.text(), piece),
        TokenKind::Hole => {
            out.put("HOLE");
            push_other(out, "_", piece)
        }
        TokenKind::Newline => {
            push_place(out, "NL", text, token.from);
            push_other(out, "\n", piece)
        }
        TokenKind::End => {
            push_place(out, "END", text, token.from);
            push_other(out, "", piece)
        }
    }
}

/// Adds the characters of a token behind a sign.
fn push_spelled(out: &mut CaseLine, sign: &str, characters: &str, piece: &str) {
    push_word(out, sign, characters);
    push_other(out, characters, piece);
}

/// Adds the characters where a token stands, if they are others than it has.
fn push_other(out: &mut CaseLine, characters: &str, piece: &str) {
    if piece != characters {
        push_word(out, " stands at ", piece);
    }
}

/// Adds a word, and the line and the column of an offset.
fn push_place(out: &mut CaseLine, word: &str, text: &Text, at: u32) {
    out.put(word);
    if text.as_str().is_char_boundary(at as usize) {
        let (line, column) = text.place(at);
        push_number(out, " at ", line);
        push_number(out, ":", column);
    }
}
