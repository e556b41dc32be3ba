//! Which steps do the same to the same values.

ghost use Rattle.std.specs.Prelude.{◌≡◌, ℕ, true, List, OnOk, Some, map, slice_get};
ghost use Rattle.pp_prog.specs.declared.types.Ctor.{Ctor};
ghost use Rattle.pp_prog.specs.declared.value.Value.{Value};
ghost use Rattle.pp_steps.specs.Meaning.{Does, Missing, Values};
ghost use Rattle.pp_closure.specs.Facts.{Holds};
ghost use Rattle.pp_closure.specs.Keeps.{Keeps};
ghost use Rattle.pp_closure.specs.Steps.{made_of_two};
ghost use Rattle.pp_closure.specs.Valuation.{Valuation};

use crate::NoMemory;
use crate::calls::{answered_at, are_had_alike, ask_alike};
use crate::facts::Facts;
use crate::operators::{commutes, is_one, is_one_unary, number_of, unary_number};
use crate::seen::{Deed, Seen};
use pp_list::at;
use pp_prog::BinaryOp;
use pp_steps::{OpenCall, Step};

/// The step has the value of another one that was seen to do the same. The only error is want of memory.
pub(crate) fn learn_alike(
    facts: &mut Facts,
    all: &[Step],
    seen: &mut Seen,
    number: u32,
    step: &Step,
) -> Result<(), NoMemory>
    ensures { OnOk result (Keeps all.now facts.old facts.new) }
{
    if let Some(deed) = deed_of(facts, all, number, step) {
        let before = seen.note(deed, number)?;
        learn_same(facts, all, number, before);
    }
    Ok(())
}

/// If the two steps do the same they have one value.
fn learn_same(facts: &mut Facts, all: &[Step], number: u32, other: Option<u32>)
    ensures { Keeps all.now facts.old facts.new }
{
    if let Some(other) = other {
        if are_alike(facts, all, number, other) {
            facts.unite(number, other);
        }
    }
}

/// What the step does, where it is worth the while to look for another one that does it.
fn deed_of(facts: &Facts, all: &[Step], number: u32, step: &Step) -> Option<Deed> {
    match step {
        Step::Not(a) => Some(Deed::Not(facts.root(*a))),
        Step::Unary(op, a) => Some(Deed::Unary(unary_number(*op), facts.root(*a))),
        Step::Binary(op, a, b) => Some(deed_of_two(*op, facts.root(*a), facts.root(*b))),
        Step::Construct(ctor, fields) => {
            Some(Deed::Construct(ctor.0, mark_of(facts, fields.as_slice())))
        }
        Step::IsCtor(ctor, _, a) => Some(Deed::Test(ctor.0, facts.root(*a))),
        Step::CtorField(ctor, place, a) => Some(Deed::Field(ctor.0, *place, facts.root(*a))),
        Step::HasAnswer(call) => deed_of_having(facts, call),
        Step::Answer(_) => deed_of_answer(facts, all, number),
        _ => None,
    }
}

/// What a step does that tells whether a call has an answer, once the call is known to be reached.
fn deed_of_having(facts: &Facts, call: &OpenCall) -> Option<Deed> {
    if facts.is(call.reach, true) {
        let mark = mark_of(facts, call.args.as_slice());
        Some(Deed::Having(call.callee.0, call.wait, mark))
    } else {
        None
    }
}

/// What a step does that is the answer of a call, once it is known that the call has one.
fn deed_of_answer(facts: &Facts, all: &[Step], number: u32) -> Option<Deed> {
    let call = answered_at(facts, all, number)?;
    let mark = mark_of(facts, call.args.as_slice());
    Some(Deed::Answer(call.callee.0, mark))
}

/// A number that is the same for steps of the same classes in the same order, and for few others.
pub(crate) fn mark_of(facts: &Facts, numbers: &[u32]) -> u32 {
    let mut mark = 0;
    for number in numbers {
        mark = with_mark(mark, facts.root(*number));
    }
    mark
}

/// The mark of one step more, the first of its class.
pub(crate) fn with_mark(mark: u32, root: u32) -> u32 {
    mark.wrapping_mul(0x0100_0193)
        .wrapping_add(root)
        .wrapping_add(1)
}

/// What the operator does to the two, in any order if that doesn't matter.
fn deed_of_two(op: BinaryOp, a: u32, b: u32) -> Deed {
    if commutes(op) {
        Deed::Binary(number_of(op), a.min(b), a.max(b))
    } else {
        Deed::Binary(number_of(op), a, b)
    }
}

/// Whether the two steps are known to have one value: they are the answers of calls that ask alike, or they do the same
/// to the same values.
fn are_alike(facts: &Facts, all: &[Step], one: u32, other: u32) -> bool
    ensures { (v : Valuation all.now) → Holds v.values facts.now → result ≡ true → v.values one ≡ v.values other }
{
    are_one_answer(facts, all, one, other) || are_made_alike(facts, all, one, other)
}

/// Whether the two steps are known to be the answers of calls that ask alike, however long these wait.
fn are_one_answer(facts: &Facts, all: &[Step], one: u32, other: u32) -> bool
    ensures { (v : Valuation all.now) → Holds v.values facts.now → result ≡ true → v.values one ≡ v.values other }
{
    match (answered_at(facts, all, one), answered_at(facts, all, other)) {
        (Some(c), Some(d)) => ask_alike(facts, c, d),
        _ => false,
    }
}

/// Whether the two steps do the same to the same values.
fn are_made_alike(facts: &Facts, all: &[Step], one: u32, other: u32) -> bool
    ensures { (v : Valuation all.now) → Holds v.values facts.now → result ≡ true → v.values one ≡ v.values other }
{
    match (at(all, one as usize), at(all, other as usize)) {
        (Some(one), Some(other)) => do_alike(facts, one, other),
        _ => false,
    }
}

/// Whether they do, where what they make of their operands hangs on these alone.
fn do_alike(facts: &Facts, one: &Step, other: &Step) -> bool
    ensures { (ctors : List Ctor) (missing : Missing) (ρ : Values) (x y : Value) → Does ctors missing ρ one.now x
        → Does ctors missing ρ other.now y → Holds ρ facts.now → result ≡ true → x ≡ y }
{
    match (one, other) {
        (Step::Not(a), Step::Not(b)) => facts.same(*a, *b),
        (Step::Unary(op, a), Step::Unary(like, b)) => is_one_unary(*op, *like)
            && facts.same(*a, *b),
        (Step::Binary(op, a, b), Step::Binary(like, c, d)) => {
            is_one(*op, *like) && are_taken_alike(facts, *op, (*a, *b), (*c, *d))
        }
        (Step::Construct(c, xs), Step::Construct(d, ys)) => {
            c.0 == d.0 && all_same(facts, xs.as_slice(), ys.as_slice())
        }
        (Step::IsCtor(c, n, a), Step::IsCtor(d, m, b)) => {
            c.0 == d.0 && *n == *m && facts.same(*a, *b)
        }
        (Step::CtorField(c, i, a), Step::CtorField(d, j, b)) => {
            c.0 == d.0 && *i == *j && facts.same(*a, *b)
        }
        (Step::HasAnswer(c), Step::HasAnswer(d)) => are_had_alike(facts, c, d),
        _ => false,
    }
}

/// Whether the operator makes the same of the two pairs: of the same values in the same order, or in any.
fn are_taken_alike(facts: &Facts, op: BinaryOp, one: (u32, u32), other: (u32, u32)) -> bool
    ensures { (ρ : Values) → Holds ρ facts.now → result ≡ true
        → made_of_two op (ρ one.0) (ρ one.1) ≡ made_of_two op (ρ other.0) (ρ other.1) }
{
    if commutes(op) && are_crossed(facts, one, other) {
        true
    } else {
        facts.same(one.0, other.0) && facts.same(one.1, other.1)
    }
}

/// Whether the two pairs are known to have the same values, turned round.
fn are_crossed(facts: &Facts, one: (u32, u32), other: (u32, u32)) -> bool
    ensures { (ρ : Values) → Holds ρ facts.now → result ≡ true
        → (ρ one.0 ≡ ρ other.1) × (ρ one.1 ≡ ρ other.0) }
{
    facts.same(one.0, other.1) && facts.same(one.1, other.0)
}

/// Whether the steps at each place are known to have one value.
pub(crate) fn all_same(facts: &Facts, xs: &[u32], ys: &[u32]) -> bool
    ensures { (ρ : Values) → Holds ρ facts.now → result ≡ true → map ρ xs.now ≡ map ρ ys.now }
{
    match (xs.split_first(), ys.split_first()) {
        (None, None) => true,
        (Some((x, xs)), Some((y, ys))) => facts.same(*x, *y) && all_same(facts, xs, ys),
        _ => false,
    }
}
