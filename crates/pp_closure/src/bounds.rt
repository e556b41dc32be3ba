//! What bounds of numbers say of others, and of their order.

ghost use Rattle.std.specs.Prelude.{◌≡◌, ◌<ℤ◌, ◌≤ℤ◌, ◌+ℤ◌, ◌-ℤ◌, pos, IfSome};
ghost use Rattle.std.specs.Int.{w32};
ghost use Rattle.pp_prog.specs.Fits.{same_truth};
ghost use Rattle.pp_word.specs.Word.{word_less};
ghost use Rattle.pp_word.specs.Wrapping.{IsWord};
ghost use Rattle.pp_steps.specs.Meaning.{Values, bit};
ghost use Rattle.pp_closure.specs.Facts.{Holds, IsAnswer};
ghost use Rattle.pp_closure.specs.Order.{Leaves};
ghost use Rattle.pp_closure.specs.Sums.{whole};

use crate::facts::Facts;

/// The step's value is the number.
pub(crate) fn learn_number(facts: &mut Facts, number: u32, n: i32)
    ensures { (ρ : Values) → whole (ρ number) ≡ n → Holds ρ facts.old → Holds ρ facts.new }
{
    facts.at_least(number, n);
    facts.at_most(number, n);
}

/// The step says that the first number is less than the second, or that it isn't. It is known what it says where the
/// bounds tell, and where it is known, each bounds the other.
pub(crate) fn learn_bounds(facts: &mut Facts, number: u32, low: u32, high: u32, positive: bool)
    ensures { (ρ : Values) → bit (ρ number) ≡ same_truth positive (word_less (whole (ρ low)) (whole (ρ high)))
        → IsWord w32 (whole (ρ low)) → IsWord w32 (whole (ρ high)) → Holds ρ facts.old → Holds ρ facts.new }
{
    match less(facts, low, high) {
        Some(is_less) => facts.assume(number, is_less == positive),
        None => learn_ordered(facts, number, low, high, positive),
    }
}

/// Where it is known what the step says, each bounds the other.
fn learn_ordered(facts: &mut Facts, number: u32, low: u32, high: u32, positive: bool)
    ensures { (ρ : Values) → bit (ρ number) ≡ same_truth positive (word_less (whole (ρ low)) (whole (ρ high)))
        → IsWord w32 (whole (ρ low)) → IsWord w32 (whole (ρ high)) → Holds ρ facts.old → Holds ρ facts.new }
{
    if facts.is(number, positive) {
        learn_less(facts, low, high);
    } else if facts.is(number, !positive) {
        learn_at_most(facts, high, low);
    }
}

/// Whether the first number is less than the second, where the bounds tell.
fn less(facts: &Facts, low: u32, high: u32) -> Option<bool>
    ensures { (ρ : Values) → Holds ρ facts.now → IsWord w32 (whole (ρ low)) → IsWord w32 (whole (ρ high))
        → IsAnswer result (word_less (whole (ρ low)) (whole (ρ high))) }
{
    if facts.high(low) < facts.low(high) {
        Some(true)
    } else if facts.high(high) <= facts.low(low) {
        Some(false)
    } else {
        None
    }
}

/// The first number is less than the second.
pub(crate) fn learn_less(facts: &mut Facts, low: u32, high: u32)
    ensures { (ρ : Values) → whole (ρ low) <ℤ whole (ρ high) → IsWord w32 (whole (ρ low))
        → IsWord w32 (whole (ρ high)) → Holds ρ facts.old → Holds ρ facts.new }
{
    raise(facts, low, high);
    reduce(facts, low, high);
}

/// The second number is more than the first is at least.
fn raise(facts: &mut Facts, low: u32, high: u32)
    ensures { (ρ : Values) → whole (ρ low) <ℤ whole (ρ high) → IsWord w32 (whole (ρ low))
        → Holds ρ facts.old → Holds ρ facts.new }
{
    if let Some(bound) = one_more(facts.low(low)) {
        facts.at_least(high, bound);
    }
}

/// The first number is less than the second is at most.
pub(crate) fn reduce(facts: &mut Facts, low: u32, high: u32)
    ensures { (ρ : Values) → whole (ρ low) <ℤ whole (ρ high) → IsWord w32 (whole (ρ high))
        → Holds ρ facts.old → Holds ρ facts.new }
{
    if let Some(bound) = one_less(facts.high(high)) {
        facts.at_most(low, bound);
    }
}

/// The first number is at most the second.
fn learn_at_most(facts: &mut Facts, low: u32, high: u32)
    ensures { (ρ : Values) → whole (ρ low) ≤ℤ whole (ρ high) → IsWord w32 (whole (ρ low))
        → IsWord w32 (whole (ρ high)) → Holds ρ facts.old → Holds ρ facts.new }
{
    let (least, most) = (facts.low(low), facts.high(high));
    facts.at_least(high, least);
    facts.at_most(low, most);
}

/// The numbers differ. If the bounds of the second tell which it is, that is no bound of the first.
pub(crate) fn learn_apart(facts: &mut Facts, a: u32, b: u32)
    ensures { (ρ : Values) → (whole (ρ a) ≡ whole (ρ b) → ⊥) → IsWord w32 (whole (ρ a)) → Holds ρ facts.old
        → Holds ρ facts.new }
{
    if let Some(n) = facts.known(b).number() {
        raise_past(facts, a, n);
        reduce_past(facts, a, n);
    }
}

/// The number isn't this one. If it is at least this one, it is more.
fn raise_past(facts: &mut Facts, a: u32, n: i32)
    ensures { (ρ : Values) → (whole (ρ a) ≡ n → ⊥) → IsWord w32 (whole (ρ a)) → Holds ρ facts.old → Holds ρ facts.new }
{
    if facts.low(a) == n {
        if let Some(bound) = one_more(n) {
            facts.at_least(a, bound);
        }
    }
}

/// If it is at most this one, it is less.
fn reduce_past(facts: &mut Facts, a: u32, n: i32)
    ensures { (ρ : Values) → (whole (ρ a) ≡ n → ⊥) → IsWord w32 (whole (ρ a)) → Holds ρ facts.old → Holds ρ facts.new }
{
    if facts.high(a) == n {
        if let Some(bound) = one_less(n) {
            facts.at_most(a, bound);
        }
    }
}

fn one_more(n: i32) -> Option<i32>
    ensures { IfSome result (λ m. m ≡ n +ℤ pos 1) }
{
    if n < i32::MAX { Some(n + 1) } else { None }
}

fn one_less(n: i32) -> Option<i32>
    ensures { IfSome result (λ m. m ≡ n -ℤ pos 1) }
{
    if n > i32::MIN { Some(n - 1) } else { None }
}

/// The step is the remainder of `a` by `b`. Of a positive divisor it is less than that, and has the sign of `a`.
pub(crate) fn learn_remainder(facts: &mut Facts, number: u32, a: u32, b: u32)
    ensures { (ρ : Values) → Leaves (whole (ρ a)) (whole (ρ b)) (whole (ρ number)) → IsWord w32 (whole (ρ a))
        → IsWord w32 (whole (ρ b)) → Holds ρ facts.old → Holds ρ facts.new }
{
    if facts.low(b) > 0 {
        reduce(facts, number, b);
        learn_natural(facts, number, a, b);
    }
}

/// Of a natural number it is one too, and no more than that.
fn learn_natural(facts: &mut Facts, number: u32, a: u32, b: u32)
    ensures { (ρ : Values) → Leaves (whole (ρ a)) (whole (ρ b)) (whole (ρ number)) → pos 0 <ℤ whole (ρ b)
        → IsWord w32 (whole (ρ a)) → Holds ρ facts.old → Holds ρ facts.new }
{
    if facts.low(a) >= 0 {
        let most = facts.high(a);
        facts.at_least(number, 0);
        facts.at_most(number, most);
    }
}
