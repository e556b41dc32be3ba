//! Which test is decided next.

use crate::facts::Facts;
use pp_list::at;
use pp_operators::{is_equality, is_order};
use pp_prog::{BinaryOp, Sort, TypeTable, UnaryOp};
use pp_steps::Step;

/// How many negations are looked through.
const MOST_NEGATIONS: u32 = 8;

/// How many steps are looked through, from one that hangs on a test to that test.
const MOST_LOOKED_THROUGH: u32 = 64;

/// The first test that isn't decided on a way that is known to be taken: whether a value has a constructor, whether a
/// call has an answer, a truth value that is an answer or a choice, or a comparison of numbers. Any step would do:
/// which one it is tells only how soon a contradiction is found.
pub(crate) fn undecided(table: &TypeTable, all: &[Step], facts: &Facts) -> Option<u32> {
    for step in all {
        if let Some(test) = open_test(table, all, facts, step) {
            return Some(test);
        }
    }
    None
}

/// Of all tests that aren't decided the one with the least number: of those on a way that is known to be taken, as above,
/// and of those that choices hang on. Where calls are unfolded on demand the first steps are nearest to what is claimed.
pub(crate) fn least_undecided(all: &[Step], facts: &Facts) -> Option<u32> {
    let mut least = None;
    for step in all {
        if let Some(test) = first_test(all, facts, step) {
            match least {
                Some(known) if known <= test => {}
                _ => least = Some(test),
            }
        }
    }
    least
}

/// The test that the step hangs on, if that isn't decided.
fn first_test(all: &[Step], facts: &Facts, step: &Step) -> Option<u32> {
    match step {
        Step::Both(a, b) => match (facts.truth(*a), facts.truth(*b)) {
            (Some(true), None) => test_within(all, facts, *b),
            (None, Some(true)) => test_within(all, facts, *a),
            _ => None,
        },
        Step::Choose(test, _, _) if facts.truth(*test).is_none() => test_within(all, facts, *test),
        _ => None,
    }
}

/// A test that the truth value of the step hangs on, if it isn't decided.
fn test_within(all: &[Step], facts: &Facts, number: u32) -> Option<u32> {
    let mut test = number;
    for _ in 0..MOST_LOOKED_THROUGH {
        match at(all, test as usize)? {
            Step::Not(a) | Step::Unary(UnaryOp::Not, a) => test = *a,
            Step::Both(a, b) => test = if facts.truth(*a).is_none() { *a } else { *b },
            Step::Choose(choice, a, b) => {
                test = match facts.truth(*choice) {
                    None => *choice,
                    Some(true) => *a,
                    Some(false) => *b,
                }
            }
            Step::IsCtor(..)
            | Step::HasAnswer(_)
            | Step::Answer(_)
            | Step::Open(_)
            | Step::CtorField(..)
            | Step::GoesDown(..)
            | Step::Binary(..)
                if facts.truth(test).is_none() => return Some(test),
            _ => return None,
        }
    }
    None
}

/// The test of a conjunction of which the other part is known to be true.
fn open_test(table: &TypeTable, all: &[Step], facts: &Facts, step: &Step) -> Option<u32> {
    match step {
        Step::Both(a, b) => match (facts.truth(*a), facts.truth(*b)) {
            (Some(true), None) => test_at(table, all, *b),
            (None, Some(true)) => test_at(table, all, *a),
            _ => None,
        },
        _ => None,
    }
}

/// The step, or the one that it negates, if it is worth the while to decide it.
fn test_at(table: &TypeTable, all: &[Step], number: u32) -> Option<u32> {
    let mut test = number;
    for _ in 0..MOST_NEGATIONS {
        match at(all, test as usize) {
            Some(Step::Not(a)) | Some(Step::Unary(UnaryOp::Not, a)) => test = *a,
            Some(step) if is_test(table, all, step) => return Some(test),
            _ => return None,
        }
    }
    None
}

/// Whether the step is a test of the program.
fn is_test(table: &TypeTable, all: &[Step], step: &Step) -> bool {
    match step {
        Step::IsCtor(..)
        | Step::HasAnswer(_)
        | Step::Answer(_)
        | Step::Open(_)
        | Step::Choose(..) => true,
        Step::Binary(op, a, _) => is_order(*op) || is_equality(*op) && is_number(table, all, *a),
        _ => false,
    }
}

/// Whether the step shows by itself that it is a number.
fn is_number(table: &TypeTable, all: &[Step], number: u32) -> bool {
    match at(all, number as usize) {
        Some(Step::Int(_)) => true,
        Some(Step::Open(sort)) => matches!(sort, Sort::Int),
        Some(Step::Answer(call)) => matches!(call.result, Sort::Int),
        Some(Step::CtorField(ctor, place, _)) => is_number_field(table, ctor.0, *place),
        Some(Step::Binary(op, _, _)) => !is_order(*op) && !is_equality(*op),
        _ => false,
    }
}

/// Whether the field of the constructor at the place is a number.
fn is_number_field(table: &TypeTable, ctor: u32, place: u32) -> bool {
    match table.ctors.get(ctor as usize) {
        Some(ctor) => matches!(ctor.fields.get(place as usize), Some(Sort::Int)),
        None => false,
    }
}
