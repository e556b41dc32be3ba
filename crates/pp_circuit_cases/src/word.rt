//! The calls of `pp_word` on pairs of numbers. The answer to a pair a and b is -a, ~a, a + b, a - b, a * b, a & b,
//! a | b, a ^ b, a << b, a >> b, a >>> b, a / b, a % b, a < b and a <= b. A quotient and a remainder that aren't there
//! are `none`.

use crate::numbers::{halves, number, push_all};
use pp_case_line::CaseLine;
use pp_word::{add, and, at_most, div, less, mul, neg, not, or, rem, shl, shr, sub, ushr, xor};

/// Adds a pair, and what the calls make of it.
pub fn push_row(line: &mut CaseLine, pair: &str) {
    line.put(pair);
    line.put(":");
    let (a, b) = halves(pair, ' ');
    push_answer(line, number(a).cast_signed(), number(b).cast_signed());
}

/// Adds what the calls make of two numbers.
fn push_answer(line: &mut CaseLine, a: i32, b: i32) {
    push_all(line, &values(a, b));
    match (div(a, b), rem(a, b)) {
        (Some(quotient), Some(rest)) => push_all(line, &[quotient, rest]),
        _ => line.put(" none none"),
    }
    push_all(line, &[less(a, b), at_most(a, b)]);
}

/// What the calls answer that answer a number.
fn values(a: i32, b: i32) -> [i32; 11] {
    [
        neg(a),
        not(a),
        add(a, b),
        sub(a, b),
        mul(a, b),
        and(a, b),
        or(a, b),
        xor(a, b),
        shl(a, b),
        shr(a, b),
        ushr(a, b),
    ]
}
