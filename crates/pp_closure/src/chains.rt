//! What chains of known orders and of sums that don't wrap say: where one number is at most a second one and that at
//! most a third one, how the first and the third compare.

ghost use Rattle.std.specs.Prelude.{◌≡◌, ℤ, ◌+ℤ◌, true, false, IfSome, Some, slice_get};
ghost use Rattle.pp_word.specs.Word.{word_less};
ghost use Rattle.pp_steps.specs.Meaning.{Values};
ghost use Rattle.pp_closure.specs.Facts.{Holds};
ghost use Rattle.pp_closure.specs.Keeps.{Keeps};
ghost use Rattle.pp_closure.specs.Order.{Apart, Compares, DividesBelow, Ordered};
ghost use Rattle.pp_closure.specs.Steps as looked;
ghost use Rattle.pp_closure.specs.Sums.{Adds, IsExact, whole};
ghost use Rattle.pp_closure.specs.Valuation.{Valuation};

use crate::additions::{Addition, turned};
use crate::amounts::{exact_at, minus, plus};
use crate::descents::descent_at;
use crate::facts::Facts;
use crate::orders::{Order, order_in};
use pp_list::at;
use pp_prog::BinaryOp;
use pp_steps::Step;

/// That a number and so many more are at most another one.
#[derive(Clone, Copy)]
pub(crate) struct Link {
    pub low: u32,
    pub high: u32,
    pub gap: i32,
}

/// How the step with the number compares two numbers, if it does: by an order, or as a component of a measure.
pub(crate) fn comparison_at(facts: &Facts, all: &[Step], number: u32) -> Option<Order>
    ensures { (v : Valuation all.now) → Holds v.values facts.now → Ordered v.values number result }
{
    match ordered_at(all, number) {
        Some(order) => Some(order),
        None => descent_at(facts, all, number),
    }
}

/// How it does by an order.
fn ordered_at(all: &[Step], number: u32) -> Option<Order>
    ensures { (v : Valuation all.now) → Ordered v.values number result }
{
    order_in(all, number)
}

/// What the step with the number is known to say of the order of two others.
pub(crate) fn link_at(facts: &Facts, all: &[Step], number: u32) -> Option<Link>
    ensures { IfSome result (λ l. (v : Valuation all.now) → Holds v.values facts.now
        → Apart v.values l.low l.gap l.high) }
{
    match comparison_at(facts, all, number) {
        Some(order) => link_of(facts, number, order),
        None => link_of_remainder(facts, all, number),
    }
}

/// A remainder by a positive number is less than that.
fn link_of_remainder(facts: &Facts, all: &[Step], number: u32) -> Option<Link>
    ensures { IfSome result (λ l. (v : Valuation all.now) → Holds v.values facts.now
        → Apart v.values l.low l.gap l.high) }
{
    match divisor_at(all, number) {
        Some(high) => {
            if facts.low(high) > 0 {
                Some(Link {
                    low: number,
                    high,
                    gap: 1,
                })
            } else {
                None
            }
        }
        None => None,
    }
}

/// The number by which the step has the remainder of another one.
fn divisor_at(all: &[Step], number: u32) -> Option<u32>
    ensures { IfSome result (λ b. (v : Valuation all.now) → DividesBelow v.values b number) }
{
    divisor_in(all, number)
}

fn divisor_in(all: &[Step], number: u32) -> Option<u32>
    ensures { result ≡ looked.divisor_in (slice_get all.now number) }
{
    match at(all, number as usize) {
        Some(Step::Binary(BinaryOp::Rem, _, b)) => Some(*b),
        _ => None,
    }
}

/// What it says where it is known whether it is true.
fn link_of(facts: &Facts, number: u32, order: Order) -> Option<Link>
    ensures { IfSome result (λ l. (ρ : Values) → Compares ρ number order → Holds ρ facts.now
        → Apart ρ l.low l.gap l.high) }
{
    if facts.is(number, order.positive) {
        Some(Link {
            low: order.low,
            high: order.high,
            gap: 1,
        })
    } else if facts.is(number, !order.positive) {
        Some(Link {
            low: order.high,
            high: order.low,
            gap: 0,
        })
    } else {
        None
    }
}

/// A step that shows how two numbers compare, the higher one of which is this.
#[derive(Clone, Copy)]
pub(crate) struct Hop {
    pub by: u32,
    pub to: u32,
}

/// By how much the number that the hop leads to is more than the first at least.
pub(crate) fn gap_of(facts: &Facts, all: &[Step], from: u32, hop: Hop) -> Option<i32>
    ensures { IfSome result (λ n. (v : Valuation all.now) → Holds v.values facts.now
        → Apart v.values from n hop.to) }
{
    match link_at(facts, all, hop.by) {
        Some(link) => gap_of_link(facts, from, hop.to, link),
        None => gap_of_sum(facts, all, from, hop),
    }
}

/// The gap of the link, where it is between the two.
fn gap_of_link(facts: &Facts, from: u32, to: u32, link: Link) -> Option<i32>
    ensures { IfSome result (λ n. (ρ : Values) → Holds ρ facts.now → Apart ρ link.low link.gap link.high
        → Apart ρ from n to) }
{
    if facts.same(from, link.low) && facts.same(to, link.high) {
        Some(link.gap)
    } else {
        None
    }
}

/// By how much they differ at least, where the step says that one of them is the sum of the other and a third number,
/// and that doesn't wrap.
fn gap_of_sum(facts: &Facts, all: &[Step], from: u32, hop: Hop) -> Option<i32>
    ensures { IfSome result (λ n. (v : Valuation all.now) → Holds v.values facts.now
        → Apart v.values from n hop.to) }
{
    match exact_at(facts, all, hop.by) {
        Some(it) => match gap_of_part(facts, from, hop.to, it) {
            Some(gap) => Some(gap),
            None => gap_of_part(facts, from, hop.to, turned(it)),
        },
        None => None,
    }
}

/// By how much they differ at least, where they are the sum and its first part.
fn gap_of_part(facts: &Facts, from: u32, to: u32, it: Addition) -> Option<i32>
    ensures { IfSome result (λ n. (ρ : Values) → Holds ρ facts.now → Adds ρ it → IsExact ρ it → Apart ρ from n to) }
{
    if facts.same(from, it.one) && facts.same(to, it.sum) {
        Some(facts.low(it.other))
    } else if facts.same(from, it.sum) && facts.same(to, it.one) {
        minus(0, facts.high(it.other))
    } else {
        None
    }
}

/// By how much the second number is more than the first at least, by the hops of the chain, one after another.
fn gap_along(facts: &Facts, all: &[Step], chain: &[Hop], low: u32, high: u32) -> Option<i32>
    ensures { IfSome result (λ n. (v : Valuation all.now) → Holds v.values facts.now → Apart v.values low n high) }
{
    match chain.split_first() {
        None => no_gap(facts, low, high),
        Some((first, rest)) => both(
            gap_of(facts, all, low, *first),
            gap_along(facts, all, rest, first.to, high),
        ),
    }
}

/// None, where the two are one.
fn no_gap(facts: &Facts, low: u32, high: u32) -> Option<i32>
    ensures { IfSome result (λ n. (ρ : Values) → Holds ρ facts.now → Apart ρ low n high) }
{
    if facts.same(low, high) { Some(0) } else { None }
}

/// Both together, where that doesn't wrap.
fn both(one: Option<i32>, other: Option<i32>) -> Option<i32>
    ensures { IfSome result (λ n. (l : ℤ) × (m : ℤ) × (one ≡ Some l) × (other ≡ Some m) × (n ≡ l +ℤ m)) }
{
    match (one, other) {
        (Some(one), Some(other)) => plus(one, other),
        _ => None,
    }
}

/// Whether the chain shows that the first number is less than the second.
fn shows_less(facts: &Facts, all: &[Step], chain: &[Hop], low: u32, high: u32) -> bool
    ensures { (v : Valuation all.now) → Holds v.values facts.now → result ≡ true
        → word_less (whole (v.values low)) (whole (v.values high)) ≡ true }
{
    match gap_along(facts, all, chain, low, high) {
        Some(gap) => gap > 0,
        None => false,
    }
}

/// Whether the chain shows that the second number isn't less than the first.
fn shows_at_most(facts: &Facts, all: &[Step], chain: &[Hop], low: u32, high: u32) -> bool
    ensures { (v : Valuation all.now) → Holds v.values facts.now → result ≡ true
        → word_less (whole (v.values high)) (whole (v.values low)) ≡ false }
{
    match gap_along(facts, all, chain, low, high) {
        Some(gap) => gap >= 0,
        None => false,
    }
}

/// What the chain says of the step with the number, which compares the chain's ends: it is known whether it is true;
/// and if neither number is less than the other, they are one.
pub(crate) fn learn_by_chain(facts: &mut Facts, all: &[Step], number: u32, chain: &[Hop])
    ensures { Keeps all.now facts.old facts.new }
{
    if let Some(order) = comparison_at(facts, all, number) {
        if shows_less(facts, all, chain, order.low, order.high) {
            facts.assume(number, order.positive);
        } else if shows_at_most(facts, all, chain, order.high, order.low) {
            facts.assume(number, !order.positive);
        } else if shows_at_most(facts, all, chain, order.low, order.high) {
            learn_both_ways(facts, number, order);
        }
    }
}

/// The second number isn't less than the first. If the first isn't less than the second either, they are one.
fn learn_both_ways(facts: &mut Facts, number: u32, order: Order)
    ensures { (ρ : Values) → Compares ρ number order
        → word_less (whole (ρ order.high)) (whole (ρ order.low)) ≡ false → Holds ρ facts.old → Holds ρ facts.new }
{
    if facts.is(number, !order.positive) {
        facts.unite(order.low, order.high);
    }
}
