//! The numbers of single tokens.

ghost use Rattle.std.specs.Prelude.{◌≡◌};
ghost use Rattle.pp_grammar.specs.Words.{number_of, negated_of, negative_of, negation_of_bits, is_number, is_signed};

use pp_tokens::{Token, TokenKind};

/// The greatest decimal number, which stands directly after a minus sign alone.
const GREATEST: u32 = 2147483648;

/// The number of a token that stands by itself.
pub fn number_of(kind: TokenKind) -> Option<i32>
    ensures { result ≡ number_of kind }
{
    match kind {
        TokenKind::Number(n) if n < GREATEST => Some(n.cast_signed()),
        TokenKind::Hex(n) => Some(n.cast_signed()),
        _ => None,
    }
}

/// The wrapped negation of the word with these bits.
fn negation_of_bits(bits: u32) -> i32
    ensures { result ≡ negation_of_bits bits }
{
    bits.cast_signed().wrapping_neg()
}

/// The number of a token with a minus sign before it, where a space stands between the two.
pub fn negated_of(kind: TokenKind) -> Option<i32>
    ensures { result ≡ negated_of kind }
{
    match kind {
        TokenKind::Number(n) if n < GREATEST => Some(negation_of_bits(n)),
        TokenKind::Hex(n) => Some(negation_of_bits(n)),
        _ => None,
    }
}

/// The number of a token with a minus sign directly before it.
pub fn negative_of(kind: TokenKind) -> Option<i32>
    ensures { result ≡ negative_of kind }
{
    match kind {
        TokenKind::Number(n) if n <= GREATEST => Some(negation_of_bits(n)),
        TokenKind::Hex(n) => Some(negation_of_bits(n)),
        _ => None,
    }
}

/// Whether a token is a number.
fn is_number(kind: TokenKind) -> bool
    ensures { result ≡ is_number kind }
{
    match kind {
        TokenKind::Number(_) | TokenKind::Hex(_) => true,
        _ => false,
    }
}

/// Whether a minus sign that ends at the offset is the sign of the token.
pub fn is_signed(end: u32, t: Token) -> bool
    ensures { result ≡ is_signed end t }
{
    is_number(t.kind) && end == t.from
}
