//! Kinds of characters.

ghost use Rattle.std.specs.Prelude.{◌≡◌, ◌+◌, ◌<◌, ◌^◌};
ghost use Rattle.pp_tokens.specs.Characters.{is_line_feed, is_blank, is_operator_char, starts_name, goes_on};
ghost use Rattle.pp_tokens.specs.Characters.{goes_on_name, goes_on_digit, begins, width};

use unicode_ident::{is_xid_continue, is_xid_start};

/// The characters of operators.
const OPERATOR_CHARS: [char; 18] = [
    '!', '#', '%', '&', '*', '+', '-', '/', ':', '<', '=', '>', '?', '@', '\\', '^', '|', '~',
];

/// Whether the character is white space that ends no line: a blank, a tab, a carriage return or a form feed.
pub(crate) fn is_blank(c: char) -> bool
    ensures { result ≡ is_blank c }
{
    c == ' ' || c == '\t' || c == '\r' || c == '\u{c}'
}

/// Whether operators have the character.
pub(crate) fn is_operator_char(c: char) -> bool
    ensures { result ≡ is_operator_char c }
{
    OPERATOR_CHARS.iter().any(|x| *x == c)
}

/// Whether a name begins with the character.
pub(crate) fn starts_name(c: char) -> bool
    ensures { result ≡ starts_name c }
{
    is_xid_start(c) || c == '_'
}

/// Whether the characters go on with `x`.
pub(crate) fn goes_on(cs: &[char], x: char) -> bool
    ensures { result ≡ goes_on x cs.now }
{
    match cs {
        [] => false,
        [c, ..] => *c == x,
    }
}

/// Whether the characters go on with one that continues names.
pub(crate) fn goes_on_name(cs: &[char]) -> bool
    ensures { result ≡ goes_on_name cs.now }
{
    match cs {
        [] => false,
        [c, ..] => is_xid_continue(*c),
    }
}

/// Whether the characters go on with a decimal digit.
pub(crate) fn goes_on_digit(cs: &[char]) -> bool
    ensures { result ≡ goes_on_digit cs.now }
{
    match cs {
        [] => false,
        [c, ..] => c.is_ascii_digit(),
    }
}

/// Whether `c` and then `rest` begin with the two characters.
pub(crate) fn begins(c: char, rest: &[char], first: char, second: char) -> bool
    ensures { result ≡ begins first second c rest.now }
{
    c == first && goes_on(rest, second)
}

/// How many bytes the characters have in UTF-8.
pub(crate) fn width(cs: &[char]) -> usize
    requires { width cs.now < 2 ^ 32 }
    ensures { result ≡ width cs.now }
{
    cs.iter().map(|c| c.len_utf8()).sum()
}
