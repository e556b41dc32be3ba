//! What stands at the front of characters.

ghost use Rattle.std.specs.Prelude.{◌≡◌, ◌≤◌, ◌<◌, ◌∷◌, length};
ghost use Rattle.std.specs.List.{prefix_len};
ghost use Rattle.unicode_ident.specs.Ident.{is_xid_continue};
ghost use Rattle.pp_tokens.specs.Front.{kind_of, name_front, comment_front, front, front_of};

use crate::characters::{begins, is_blank, is_operator_char, starts_name};
use crate::comments::{block_len, line_len};
use crate::numbers::number_front;
use crate::operators::{mark_front, operator_front};
use crate::token::TokenKind;
use crate::words::{spells, word_of};
use unicode_ident::is_xid_continue;

/// What is wrong at a place.
#[derive(Clone, Copy)]
pub(crate) enum Fault {
    BadChar,
    BadNumber,
    OpenComment,
}

/// What stands at the front of characters: so many of them, which are a token or else white space or a comment; or a
/// fault.
#[derive(Clone, Copy)]
pub(crate) enum Front {
    Takes(Option<TokenKind>, usize),
    Bad(Fault),
}

/// What the characters of a name are: an underscore alone, a reserved word or a name.
fn kind_of(cs: &[char]) -> TokenKind
    ensures { result ≡ kind_of cs.now }
{
    if spells(cs, "_") {
        TokenKind::Hole
    } else {
        match word_of(cs) {
            Some(word) => TokenKind::Word(word),
            None => TokenKind::Name,
        }
    }
}

fn continued_len(cs: &[char]) -> usize
    ensures value { result ≡ prefix_len is_xid_continue cs.now }
    ensures within { result ≤ length cs.now }
{
    cs.iter().take_while(|c| is_xid_continue(**c)).count()
}

/// The name, the reserved word or the underscore at the front.
fn name_front(cs: &[char]) -> Front
    requires { 1 ≤ length cs.now }
    ensures { result ≡ name_front cs.now }
{
    let n = 1 + continued_len(&cs[1..]);
    Front::Takes(Some(kind_of(&cs[..n])), n)
}

/// The block comment at the front.
fn comment_front(cs: &[char]) -> Front
    requires { 2 ≤ length cs.now }
    ensures { result ≡ comment_front cs.now }
{
    match block_len(&cs[2..]) {
        None => Front::Bad(Fault::OpenComment),
        Some(n) => Front::Takes(None, 2 + n),
    }
}

/// What stands at the front of `cs`, which is `c` and then `rest`.
fn which_front(c: char, rest: &[char], cs: &[char]) -> Front
    requires { cs.now ≡ c ∷ rest.now }
    ensures { result ≡ front c rest.now }
{
    if c == '\n' {
        Front::Takes(Some(TokenKind::Newline), 1)
    } else if is_blank(c) {
        Front::Takes(None, 1)
    } else if begins(c, rest, '/', '/') {
        Front::Takes(None, line_len(cs))
    } else if begins(c, rest, '/', '*') {
        comment_front(cs)
    } else if starts_name(c) {
        name_front(cs)
    } else if c.is_ascii_digit() {
        number_front(cs)
    } else if is_operator_char(c) {
        operator_front(cs)
    } else {
        mark_front(c)
    }
}

/// What stands at the front.
pub(crate) fn at_front(cs: &[char]) -> Front
    requires { 0 < length cs.now }
    ensures { result ≡ front_of cs.now }
{
    which_front(cs[0], &cs[1..], cs)
}
