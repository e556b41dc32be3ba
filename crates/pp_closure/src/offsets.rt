//! The order of numbers that are as far from two others: sums with a part in common, none of which wraps, compare as
//! their other parts do.

ghost use Rattle.std.specs.Prelude.{◌≡◌, IfSome, OnOk, Some};
ghost use Rattle.pp_word.specs.Word.{word_less};
ghost use Rattle.pp_steps.specs.Meaning.{Values};
ghost use Rattle.pp_closure.specs.Facts.{Holds};
ghost use Rattle.pp_closure.specs.Keeps.{Keeps};
ghost use Rattle.pp_closure.specs.Order.{Compares};
ghost use Rattle.pp_closure.specs.Sums.{IsExact, whole};
ghost use Rattle.pp_closure.specs.Valuation.{Valuation};

use crate::NoMemory;
use crate::additions::Addition;
use crate::amounts::exact_at;
use crate::chains::comparison_at;
use crate::facts::Facts;
use crate::orders::{Order, exclude, link};
use crate::seen::{Deed, Seen};
use pp_steps::Step;

/// What an order step and those that were seen say of each other, where the numbers of the one are as far from those of
/// the other. The only error is want of memory.
pub(crate) fn learn_offsets(
    facts: &mut Facts,
    all: &[Step],
    seen: &mut Seen,
    number: u32,
    order: Order,
) -> Result<(), NoMemory>
    ensures { OnOk result (Keeps all.now facts.old facts.new) }
{
    learn_near(facts, all, seen, number, order);
    learn_far(facts, all, seen, number, order)
}

/// What the step and those that were seen say of each other, where those compare numbers that are as far from its own.
fn learn_near(facts: &mut Facts, all: &[Step], seen: &Seen, number: u32, order: Order)
    ensures { Keeps all.now facts.old facts.new }
{
    let (low, high) = (facts.root(order.low), facts.root(order.high));
    learn_offset(facts, all, seen.last(Deed::Offset(low, high)), Some(number));
    learn_offset(facts, all, seen.last(Deed::Offset(high, low)), Some(number));
}

/// The same where its own numbers are as far from theirs. The only error is want of memory.
fn learn_far(
    facts: &mut Facts,
    all: &[Step],
    seen: &mut Seen,
    number: u32,
    order: Order,
) -> Result<(), NoMemory>
    ensures { OnOk result (Keeps all.now facts.old facts.new) }
{
    match offset(facts, all, order.low, order.high) {
        Some((low, high)) => {
            let (low, high) = (facts.root(low), facts.root(high));
            seen.note(Deed::Offset(low, high), number)?;
            learn_offset(facts, all, Some(number), seen.last(Deed::Order(low, high)));
            learn_offset(facts, all, Some(number), seen.last(Deed::Order(high, low)));
            Ok(())
        }
        None => Ok(()),
    }
}

/// What is known of two order steps, where the numbers of the first are as far from those of the second.
fn learn_offset(facts: &mut Facts, all: &[Step], far: Option<u32>, near: Option<u32>)
    ensures { Keeps all.now facts.old facts.new }
{
    if let (Some(far), Some(near)) = (far, near) {
        let (one, other) = (
            comparison_at(facts, all, far),
            comparison_at(facts, all, near),
        );
        if let (Some(one), Some(other)) = (one, other) {
            if let Some(parts) = offset(facts, all, one.low, one.high) {
                learn_parts(facts, (far, one), (near, other), parts);
            }
        }
    }
}

/// What is known of two order steps, the first of which says how the two numbers compare.
fn learn_parts(facts: &mut Facts, far: (u32, Order), near: (u32, Order), parts: (u32, u32))
    ensures { (ρ : Values) → Compares ρ far.0 far.1 → Compares ρ near.0 near.1
        → word_less (whole (ρ far.1.low)) (whole (ρ far.1.high)) ≡ word_less (whole (ρ parts.0)) (whole (ρ parts.1))
        → Holds ρ facts.old → Holds ρ facts.new }
{
    let (one, other) = (far.1.positive, near.1.positive);
    if facts.same(parts.0, near.1.low) && facts.same(parts.1, near.1.high) {
        link(facts, far.0, near.0, one == other);
    } else if facts.same(parts.0, near.1.high) && facts.same(parts.1, near.1.low) {
        exclude(facts, far.0, near.0, one, other);
    }
}

/// Two numbers that compare as these two do.
fn offset(facts: &Facts, all: &[Step], low: u32, high: u32) -> Option<(u32, u32)>
    ensures { IfSome result (λ r. (v : Valuation all.now) → Holds v.values facts.now
        → word_less (whole (v.values low)) (whole (v.values high))
        ≡ word_less (whole (v.values r.0)) (whole (v.values r.1))) }
{
    match (
        made_exactly(facts, all, low),
        made_exactly(facts, all, high),
    ) {
        (Some(one), Some(other)) => {
            if facts.same(low, one.sum) && facts.same(high, other.sum) {
                other_parts(facts, one, other)
            } else if facts.same(low, one.one) && facts.same(high, other.one) {
                sums(facts, one, other)
            } else {
                None
            }
        }
        _ => None,
    }
}

/// The sum that the step that makes the number tells of, if it doesn't wrap.
fn made_exactly(facts: &Facts, all: &[Step], number: u32) -> Option<Addition>
    ensures { IfSome result (λ s. (v : Valuation all.now) → Holds v.values facts.now → IsExact v.values s) }
{
    match facts.known(number).maker {
        Some(maker) => exact_at(facts, all, maker),
        None => None,
    }
}

/// The parts that compare as the sums do, where the others are the same.
fn other_parts(facts: &Facts, one: Addition, other: Addition) -> Option<(u32, u32)>
    ensures { IfSome result (λ r. (ρ : Values) → Holds ρ facts.now → IsExact ρ one → IsExact ρ other
        → word_less (whole (ρ one.sum)) (whole (ρ other.sum)) ≡ word_less (whole (ρ r.0)) (whole (ρ r.1))) }
{
    if facts.same(one.one, other.one) {
        Some((one.other, other.other))
    } else if facts.same(one.other, other.other) {
        Some((one.one, other.one))
    } else if facts.same(one.one, other.other) {
        Some((one.other, other.one))
    } else if facts.same(one.other, other.one) {
        Some((one.one, other.other))
    } else {
        None
    }
}

/// What compares as the first parts do: the sums, where the second parts are the same; and where the sums are, the
/// second parts turned round.
fn sums(facts: &Facts, one: Addition, other: Addition) -> Option<(u32, u32)>
    ensures { IfSome result (λ r. (ρ : Values) → Holds ρ facts.now → IsExact ρ one → IsExact ρ other
        → word_less (whole (ρ one.one)) (whole (ρ other.one)) ≡ word_less (whole (ρ r.0)) (whole (ρ r.1))) }
{
    if facts.same(one.other, other.other) {
        Some((one.sum, other.sum))
    } else if facts.same(one.sum, other.sum) {
        Some((other.other, one.other))
    } else {
        None
    }
}
