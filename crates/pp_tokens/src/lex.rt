//! The tokens of a text.

ghost use Rattle.std.specs.Prelude.{◌≡◌, ◌+◌, ◌≤◌, All, length, IfOk, IfErr};
ghost use Rattle.std.specs.Str.{chars};
ghost use Rattle.pp_tokens.specs.Spans.{IsSpan, AreInOrder, HasEnd, FaultBegins};
ghost use Rattle.pp_tokens.specs.Tokens.{spelled, tokens_of, IsCause, IsLayout, IsBehind};

use crate::cutting::cut;
use crate::newlines::newlines;
use crate::token::{LexFault, Token};
use pp_text::{MOST_BYTES, Text};
use std::alloc::{AllocError, Global};

/// The characters of a text.
fn characters(alloc: Global, text: &str) -> Result<Vec<char>, AllocError>
    ensures { IfOk result (λ v. v.items ≡ chars text.now) }
{
    text.chars().collect(alloc)
}

/// The tokens of a text.
fn found(alloc: Global, text: &str) -> Result<Vec<Token>, LexFault>
    requires { length text.now ≤ MOST_BYTES }
    ensures spelled { IfOk result (λ v. tokens_of text.now ≡ spelled v.items) }
    ensures refused { IfErr result (λ fault. IsCause fault (tokens_of text.now)) }
{
    let cs = characters(alloc, text)?;
    let raw = cut(alloc, &cs)?;
    Ok(newlines(alloc, &raw)?)
}

/// The tokens of a text, the last of which is [`TokenKind::End`](crate::TokenKind::End).
///
/// White space is blank, tab, carriage return, form feed and line feed. A line comment runs from `//` to the end of the
/// line, and a block comment from `/*` to its `*/`; block comments nest. At each place the longest token is taken. A
/// newline is a token where it ends a statement (Scala Language Specification 2.13, 1.2).
///
/// Each refusal but want of memory comes exactly where it is the first lexical fault of the text.
pub fn tokens(alloc: Global, text: &Text) -> Result<Vec<Token>, LexFault>
    ensures spelled { IfOk result (λ v. tokens_of text.now ≡ spelled v.items) }
    ensures refused { IfErr result (λ fault. IsCause fault (tokens_of text.now)) }

    // Where the tokens stand.
    ensures whole_characters { IfOk result (λ v. All (IsSpan text.now) v.items) }
    ensures in_order { IfOk result (λ v. AreInOrder 0 v.items) }
    ensures ended { IfOk result (λ v. HasEnd (length text.now) v.items) }
    ensures fault_begins { IfErr result (λ fault. FaultBegins text.now fault) }

    // There are at most as many tokens, the end not counted, as bytes.
    ensures few { IfOk result (λ v. length v.items ≤ length text.now + 1) }

    // White space, comments and tokens put together give the text, each right where it stands.
    ensures laid_out { IfOk result (λ v. IsLayout (chars text.now) v.items) }
    ensures laid_out_before { IfErr result (λ fault. IsBehind (chars text.now) fault) }
{
    match found(alloc, text.as_str()) {
        Ok(found) => Ok(found),
        Err(fault) => Err(fault),
    }
}
