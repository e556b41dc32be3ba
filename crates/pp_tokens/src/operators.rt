//! Operators and marks.

ghost use Rattle.std.specs.Prelude.{◌≡◌, ◌≤◌, length};
ghost use Rattle.pp_tokens.specs.Operators.{operator_text, operator_of, runs_on, run_len, operator_front, mark_text};
ghost use Rattle.pp_tokens.specs.Operators.{mark_of, mark_front};

use crate::characters::{begins, is_operator_char};
use crate::front::{Fault, Front};
use crate::token::{Bracket, Operator, TokenKind};
use crate::words::spells;

/// The operators.
const OPERATORS: [Operator; 25] = [
    Operator::Plus,
    Operator::Minus,
    Operator::Times,
    Operator::Over,
    Operator::Percent,
    Operator::Equal,
    Operator::Differs,
    Operator::Less,
    Operator::AtMost,
    Operator::More,
    Operator::AtLeast,
    Operator::AndAlso,
    Operator::OrElse,
    Operator::Not,
    Operator::And,
    Operator::Or,
    Operator::Xor,
    Operator::Flip,
    Operator::Shl,
    Operator::Shr,
    Operator::Ushr,
    Operator::Assign,
    Operator::Arrow,
    Operator::Colon,
    Operator::At,
];

/// The marks.
const MARKS: [Bracket; 9] = [
    Bracket::OpenRound,
    Bracket::CloseRound,
    Bracket::OpenSquare,
    Bracket::CloseSquare,
    Bracket::OpenBrace,
    Bracket::CloseBrace,
    Bracket::Comma,
    Bracket::Dot,
    Bracket::Semicolon,
];

impl Operator {
    /// The text of the operator.
    pub fn text(self) -> &'static str
        ensures { result.now ≡ operator_text self }
    {
        match self {
            Operator::Plus => "+",
            Operator::Minus => "-",
            Operator::Times => "*",
            Operator::Over => "/",
            Operator::Percent => "%",
            Operator::Equal => "==",
            Operator::Differs => "!=",
            Operator::Less => "<",
            Operator::AtMost => "<=",
            Operator::More => ">",
            Operator::AtLeast => ">=",
            Operator::AndAlso => "&&",
            Operator::OrElse => "||",
            Operator::Not => "!",
            Operator::And => "&",
            Operator::Or => "|",
            Operator::Xor => "^",
            Operator::Flip => "~",
            Operator::Shl => "<<",
            Operator::Shr => ">>",
            Operator::Ushr => ">>>",
            Operator::Assign => "=",
            Operator::Arrow => "=>",
            Operator::Colon => ":",
            Operator::At => "@",
        }
    }
}

impl Bracket {
    /// The text of the mark, which is one character.
    pub fn text(self) -> &'static str
        ensures { result.now ≡ mark_text self }
    {
        match self {
            Bracket::OpenRound => "(",
            Bracket::CloseRound => ")",
            Bracket::OpenSquare => "[",
            Bracket::CloseSquare => "]",
            Bracket::OpenBrace => "{",
            Bracket::CloseBrace => "}",
            Bracket::Comma => ",",
            Bracket::Dot => ".",
            Bracket::Semicolon => ";",
        }
    }
}

/// The operator with these characters, if there is one.
fn operator_of(cs: &[char]) -> Option<Operator>
    ensures { result ≡ operator_of cs.now }
{
    OPERATORS
        .iter()
        .copied()
        .find(|found| spells(cs, found.text()))
}

/// Whether a run of operator characters goes on with `c`.
fn runs_on(c: char, rest: &[char]) -> bool
    ensures { result ≡ runs_on c rest.now }
{
    let comment = begins(c, rest, '/', '/') || begins(c, rest, '/', '*');
    is_operator_char(c) && !comment
}

/// How long the run of operator characters is that stops before a comment.
#[tactic(auto, using(crate::proofs::Slices::split_here, crate::proofs::RunLen::run_len_steps))]
fn run_len(cs: &[char]) -> usize
    ensures value { result ≡ run_len cs.now }
    ensures within { result ≤ length cs.now }
{
    for i in 0..cs.len() {
        if !runs_on(cs[i], &cs[i + 1..]) {
            return i;
        }
    }
    cs.len()
}

/// The operator at the front.
pub(crate) fn operator_front(cs: &[char]) -> Front
    ensures { result ≡ operator_front cs.now }
{
    let n = run_len(cs);
    match operator_of(&cs[..n]) {
        Some(found) => Front::Takes(Some(TokenKind::Op(found)), n),
        None => Front::Bad(Fault::BadChar),
    }
}

/// The mark that is this character, if it is one.
fn mark_of(c: char) -> Option<Bracket>
    ensures { result ≡ mark_of c }
{
    let cs = [c];
    MARKS
        .iter()
        .copied()
        .find(|found| spells(&cs, found.text()))
}

/// The mark that is this character.
pub(crate) fn mark_front(c: char) -> Front
    ensures { result ≡ mark_front (mark_of c) }
{
    match mark_of(c) {
        Some(found) => Front::Takes(Some(TokenKind::Mark(found)), 1),
        None => Front::Bad(Fault::BadChar),
    }
}
