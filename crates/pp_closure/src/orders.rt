//! What steps on the order of numbers say.

ghost use Rattle.std.specs.Prelude.{◌≡◌, true, not, OnOk, slice_get, Some};
ghost use Rattle.pp_prog.specs.Fits.{same_truth};
ghost use Rattle.pp_steps.specs.Meaning.{Values, bit};
ghost use Rattle.pp_closure.specs.Facts.{Holds};
ghost use Rattle.pp_closure.specs.Order as spec;
ghost use Rattle.pp_closure.specs.Order.{Says, is_less};
ghost use Rattle.pp_closure.specs.Steps as looked;
ghost use Rattle.pp_closure.specs.Valuation.{Valuation};

use crate::NoMemory;
use crate::facts::Facts;
use crate::seen::{Deed, Seen};
use pp_list::at;
use pp_prog::BinaryOp;
use pp_steps::Step;

/// That a step is less than another one, or that it isn't.
#[derive(Clone, Copy)]
pub(crate) struct Order {
    pub low: u32,
    pub high: u32,
    pub positive: bool,
}

/// What an operator on two steps says of their order.
pub(crate) fn order_of(op: BinaryOp, a: u32, b: u32) -> Option<Order>
    ensures { result ≡ spec.order_of op a b }
{
    match op {
        BinaryOp::Less => Some(Order {
            low: a,
            high: b,
            positive: true,
        }),
        BinaryOp::More => Some(Order {
            low: b,
            high: a,
            positive: true,
        }),
        BinaryOp::AtMost => Some(Order {
            low: b,
            high: a,
            positive: false,
        }),
        BinaryOp::AtLeast => Some(Order {
            low: a,
            high: b,
            positive: false,
        }),
        _ => None,
    }
}

/// What the step with the number says of the order of two others.
fn order_at(all: &[Step], number: u32) -> Option<Order>
    ensures { (v : Valuation all.now) → Says v.values number result }
{
    order_in(all, number)
}

/// What the step with the number says of the order of two others, by the step alone.
pub(crate) fn order_in(all: &[Step], number: u32) -> Option<Order>
    ensures { result ≡ looked.order_in (slice_get all.now number) }
{
    match at(all, number as usize) {
        Some(Step::Binary(op, a, b)) => order_of(*op, *a, *b),
        _ => None,
    }
}

/// The step says this of the order of two others. Nothing is less than itself; what an earlier step says of the same
/// two, and of the two turned round, is known of this one. The only error is want of memory.
pub(crate) fn learn_order(
    facts: &mut Facts,
    all: &[Step],
    seen: &mut Seen,
    number: u32,
    order: Order,
) -> Result<(), NoMemory>
    ensures { OnOk result ((v : Valuation all.now) → Says v.values number (Some order)
        → Holds v.values facts.old → Holds v.values facts.new) }
{
    if facts.same(order.low, order.high) {
        facts.assume(number, !order.positive);
        return Ok(());
    }
    let (low, high) = (facts.root(order.low), facts.root(order.high));
    let before = seen.note(Deed::Order(low, high), number)?;
    learn_again(facts, all, number, order, before);
    let turned = seen.last(Deed::Order(high, low));
    learn_turned(facts, all, number, order, turned);
    Ok(())
}

/// What is known of the other step, if it says the same.
fn learn_again(facts: &mut Facts, all: &[Step], number: u32, order: Order, other: Option<u32>)
    ensures { (v : Valuation all.now) → Says v.values number (Some order)
        → Holds v.values facts.old → Holds v.values facts.new }
{
    if let Some(other) = other {
        if let Some(known) = order_at(all, other) {
            if facts.same(known.low, order.low) && facts.same(known.high, order.high) {
                link(facts, number, other, known.positive == order.positive);
            }
        }
    }
}

/// Of two steps the one is true where the other is, or where it isn't.
pub(crate) fn link(facts: &mut Facts, one: u32, other: u32, alike: bool)
    ensures { (ρ : Values) → bit (ρ one) ≡ same_truth alike (bit (ρ other)) → Holds ρ facts.old → Holds ρ facts.new }
{
    if let Some(truth) = facts.truth(other) {
        facts.assume(one, truth == alike);
    } else if let Some(truth) = facts.truth(one) {
        facts.assume(other, truth == alike);
    }
}

/// What is known of the other step, if it says so of the two turned round: of two numbers one at most is less.
fn learn_turned(facts: &mut Facts, all: &[Step], number: u32, order: Order, other: Option<u32>)
    ensures { (v : Valuation all.now) → Says v.values number (Some order)
        → Holds v.values facts.old → Holds v.values facts.new }
{
    if let Some(other) = other {
        if let Some(known) = order_at(all, other) {
            if facts.same(known.low, order.high) && facts.same(known.high, order.low) {
                exclude(facts, number, other, order.positive, known.positive);
            }
        }
    }
}

/// Of two steps only one can be as is said.
pub(crate) fn exclude(facts: &mut Facts, one: u32, other: u32, here: bool, there: bool)
    ensures { (ρ : Values) → (bit (ρ one) ≡ here → bit (ρ other) ≡ not there) → (bit (ρ other) ≡ there
        → bit (ρ one) ≡ not here) → Holds ρ facts.old → Holds ρ facts.new }
{
    if facts.is(other, there) {
        facts.assume(one, !here);
    } else if facts.is(one, here) {
        facts.assume(other, !there);
    }
}
