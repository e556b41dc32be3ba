//! What sums that don't wrap say of bounds and of order.

ghost use Rattle.std.specs.Prelude.{◌≡◌, ◌≤ℤ◌, ◌+ℤ◌, ◌-ℤ◌, true, IfSome};
ghost use Rattle.pp_steps.specs.Meaning.{Values};
ghost use Rattle.pp_closure.specs.Facts.{Holds};
ghost use Rattle.pp_closure.specs.Sums.{Adds, IsExact, whole};
ghost use Rattle.pp_closure.specs.Valuation.{Valuation};

use crate::additions::{Addition, addition_at, turned};
use crate::facts::Facts;
use pp_steps::Step;

/// The sum, where it doesn't wrap.
pub(crate) fn plus(a: i32, b: i32) -> Option<i32>
    ensures { IfSome result (λ n. n ≡ a +ℤ b) }
{
    a.checked_add(b)
}

/// The difference, where it doesn't wrap.
pub(crate) fn minus(a: i32, b: i32) -> Option<i32>
    ensures { IfSome result (λ n. n ≡ a -ℤ b) }
{
    a.checked_sub(b)
}

/// What the sum says of bounds where it doesn't wrap.
pub(crate) fn learn_amounts(facts: &mut Facts, it: Addition)
    ensures { (ρ : Values) → Adds ρ it → Holds ρ facts.old → Holds ρ facts.new }
{
    if is_exact(facts, it) {
        learn_sum(facts, it);
        learn_part(facts, it);
        learn_part(facts, turned(it));
    }
}

/// The sum that the step with the number tells of, if it doesn't wrap.
pub(crate) fn exact_at(facts: &Facts, all: &[Step], number: u32) -> Option<Addition>
    ensures { IfSome result (λ s. (v : Valuation all.now) → Holds v.values facts.now
        → Adds v.values s × IsExact v.values s) }
{
    match addition_at(all, number) {
        Some(it) => { if is_exact(facts, it) { Some(it) } else { None } }
        None => None,
    }
}

/// Whether the bounds show that the sum doesn't wrap, or that a part doesn't, as a difference.
pub(crate) fn is_exact(facts: &Facts, it: Addition) -> bool
    ensures { (ρ : Values) → Adds ρ it → Holds ρ facts.now → result ≡ true → IsExact ρ it }
{
    if is_exact_sum(facts, it) {
        true
    } else if is_exact_part(facts, it) {
        true
    } else {
        is_exact_part(facts, turned(it))
    }
}

/// Whether the bounds of the parts show that the sum doesn't wrap.
fn is_exact_sum(facts: &Facts, it: Addition) -> bool
    ensures { (ρ : Values) → Adds ρ it → Holds ρ facts.now → result ≡ true → IsExact ρ it }
{
    match (
        plus(facts.low(it.one), facts.low(it.other)),
        plus(facts.high(it.one), facts.high(it.other)),
    ) {
        (Some(low), Some(high)) => low <= high,
        _ => false,
    }
}

/// Whether the bounds of the sum and of the second part show that their difference doesn't wrap.
fn is_exact_part(facts: &Facts, it: Addition) -> bool
    ensures { (ρ : Values) → Adds ρ it → Holds ρ facts.now → result ≡ true → IsExact ρ it }
{
    match (
        minus(facts.low(it.sum), facts.high(it.other)),
        minus(facts.high(it.sum), facts.low(it.other)),
    ) {
        (Some(low), Some(high)) => low <= high,
        _ => false,
    }
}

/// The sum lies between those of the bounds.
fn learn_sum(facts: &mut Facts, it: Addition)
    ensures { (ρ : Values) → IsExact ρ it → Adds ρ it → Holds ρ facts.old → Holds ρ facts.new }
{
    let low = plus(facts.low(it.one), facts.low(it.other));
    let high = plus(facts.high(it.one), facts.high(it.other));
    raise_to(facts, it.sum, low);
    reduce_to(facts, it.sum, high);
}

/// The first part lies between the differences of the bounds.
fn learn_part(facts: &mut Facts, it: Addition)
    ensures { (ρ : Values) → IsExact ρ it → Adds ρ it → Holds ρ facts.old → Holds ρ facts.new }
{
    let low = minus(facts.low(it.sum), facts.high(it.other));
    let high = minus(facts.high(it.sum), facts.low(it.other));
    raise_to(facts, it.one, low);
    reduce_to(facts, it.one, high);
}

/// The number is at least the bound, if there is one.
fn raise_to(facts: &mut Facts, number: u32, bound: Option<i32>)
    ensures { (ρ : Values) → IfSome bound (λ n. n ≤ℤ whole (ρ number)) → Holds ρ facts.old → Holds ρ facts.new }
{
    if let Some(bound) = bound {
        facts.at_least(number, bound);
    }
}

/// The number is at most the bound, if there is one.
fn reduce_to(facts: &mut Facts, number: u32, bound: Option<i32>)
    ensures { (ρ : Values) → IfSome bound (λ n. whole (ρ number) ≤ℤ n) → Holds ρ facts.old → Holds ρ facts.new }
{
    if let Some(bound) = bound {
        facts.at_most(number, bound);
    }
}
