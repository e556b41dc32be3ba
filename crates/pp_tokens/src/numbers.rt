//! Numbers.

ghost use Rattle.std.specs.Prelude.{◌≡◌, ◌≤◌, length, min};
ghost use Rattle.std.specs.List.{prefix_len};
ghost use Rattle.std.specs.Char.{is_ascii_digit, is_ascii_hexdigit};
ghost use Rattle.pp_tokens.specs.Numbers.{digit_of, value, is_end, is_hexadecimal, decimal, hexadecimal, number_front};

use crate::characters::{goes_on, goes_on_digit};
use crate::front::{Fault, Front};
use crate::token::TokenKind;
use unicode_ident::is_xid_continue;

/// The greatest decimal number: the magnitude of the least `Int`.
const GREATEST_DECIMAL: u64 = 2_147_483_648;

/// The greatest hexadecimal number: 32 bits.
const GREATEST_HEXADECIMAL: u64 = 0xffff_ffff;

/// A number above both, at which values are capped.
const TOO_GREAT: u64 = 0x1_0000_0000;

/// The value of a decimal or hexadecimal digit.
fn digit_of(c: char) -> u64
    ensures value { result ≡ digit_of c }
    ensures small { result ≤ 0x10_ffff }
{
    let code = u64::from(u32::from(c));
    if code <= 57 {
        code.saturating_sub(48)
    } else if code <= 70 {
        code.saturating_sub(55)
    } else {
        code.saturating_sub(87)
    }
}

/// The value of the digits, capped.
#[tactic(auto, using(crate::proofs::Capped::value_more))]
fn value(base: u64, digits: &[char]) -> u64
    requires some { 1 ≤ base }
    requires small { base ≤ 16 }
    ensures { result ≡ min (value base digits.now) TOO_GREAT }
{
    let mut value: u64 = 0;
    for digit in digits {
        value = (value * base + digit_of(*digit)).min(TOO_GREAT);
    }
    value
}

/// Whether a number may end before these characters.
fn is_end(cs: &[char]) -> bool
    ensures { result ≡ is_end cs.now }
{
    match cs {
        [] => true,
        [c, rest @ ..] => {
            let continues = is_xid_continue(*c);
            let fraction = *c == '.' && goes_on_digit(rest);
            !continues && !fraction
        }
    }
}

/// Whether a hexadecimal number begins: `0x` or `0X`, and a digit.
fn is_hexadecimal(cs: &[char]) -> bool
    ensures { result ≡ is_hexadecimal cs.now }
{
    match cs {
        [nought, x, digit, ..] => {
            let marked = *x == 'x' || *x == 'X';
            *nought == '0' && marked && digit.is_ascii_hexdigit()
        }
        _ => false,
    }
}

fn decimal_len(cs: &[char]) -> usize
    ensures value { result ≡ prefix_len is_ascii_digit cs.now }
    ensures within { result ≤ length cs.now }
{
    cs.iter().take_while(|c| c.is_ascii_digit()).count()
}

fn hexadecimal_len(cs: &[char]) -> usize
    ensures value { result ≡ prefix_len is_ascii_hexdigit cs.now }
    ensures within { result ≤ length cs.now }
{
    cs.iter().take_while(|c| c.is_ascii_hexdigit()).count()
}

/// The decimal number at the front.
fn decimal(cs: &[char]) -> Front
    ensures { result ≡ decimal cs.now }
{
    let n = decimal_len(cs);
    let found = value(10, &cs[..n]);
    let leading = goes_on(cs, '0') && n > 1;
    let ends = is_end(&cs[n..]);
    if !leading && ends && found <= GREATEST_DECIMAL {
        Front::Takes(Some(TokenKind::Number(found as u32)), n)
    } else {
        Front::Bad(Fault::BadNumber)
    }
}

/// The hexadecimal number at the front.
fn hexadecimal(cs: &[char]) -> Front
    requires { 2 ≤ length cs.now }
    ensures { result ≡ hexadecimal cs.now }
{
    let digits = &cs[2..];
    let n = hexadecimal_len(digits);
    let found = value(16, &digits[..n]);
    let ends = is_end(&digits[n..]);
    if ends && found <= GREATEST_HEXADECIMAL {
        Front::Takes(Some(TokenKind::Hex(found as u32)), 2 + n)
    } else {
        Front::Bad(Fault::BadNumber)
    }
}

/// The number at the front.
pub(crate) fn number_front(cs: &[char]) -> Front
    ensures { result ≡ number_front cs.now }
{
    if is_hexadecimal(cs) {
        hexadecimal(cs)
    } else {
        decimal(cs)
    }
}
