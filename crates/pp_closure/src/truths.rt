//! What steps on truth values say.

ghost use Rattle.std.specs.Prelude.{◌≡◌, true, not, ◌&&◌, if◌then◌else◌};
ghost use Rattle.pp_steps.specs.Meaning.{Values, bit};
ghost use Rattle.pp_closure.specs.Facts.{Holds};

use crate::facts::Facts;

/// The step is the negation of `a`.
pub(crate) fn learn_not(facts: &mut Facts, number: u32, a: u32)
    ensures { (ρ : Values) → bit (ρ number) ≡ not (bit (ρ a)) → Holds ρ facts.old → Holds ρ facts.new }
{
    if let Some(truth) = facts.truth(a) {
        facts.assume(number, !truth);
    } else if let Some(truth) = facts.truth(number) {
        facts.assume(a, !truth);
    }
}

/// The step is true where both are.
pub(crate) fn learn_both(facts: &mut Facts, number: u32, a: u32, b: u32)
    ensures { (ρ : Values) → bit (ρ number) ≡ (bit (ρ a) && bit (ρ b)) → Holds ρ facts.old → Holds ρ facts.new }
{
    match (facts.truth(a), facts.truth(b)) {
        (Some(false), _) => facts.assume(number, false),
        (_, Some(false)) => facts.assume(number, false),
        (Some(true), Some(true)) => facts.assume(number, true),
        (left, right) => learn_parts(facts, number, a, b, left.is_some(), right.is_some()),
    }
}

/// What is known of a conjunction is known of its parts: where it is true both are; where it is false and one is true,
/// the other is false.
fn learn_parts(facts: &mut Facts, number: u32, a: u32, b: u32, left: bool, right: bool)
    ensures { (ρ : Values) → bit (ρ number) ≡ (bit (ρ a) && bit (ρ b)) → (left ≡ true → bit (ρ a) ≡ true)
        → (right ≡ true → bit (ρ b) ≡ true) → Holds ρ facts.old → Holds ρ facts.new }
{
    match facts.truth(number) {
        Some(true) => {
            facts.assume(a, true);
            facts.assume(b, true);
        }
        Some(false) if left => facts.assume(b, false),
        Some(false) if right => facts.assume(a, false),
        _ => {}
    }
}

/// The step has the value of `a` where the test is true, and else that of `b`.
pub(crate) fn learn_choice(facts: &mut Facts, number: u32, test: u32, a: u32, b: u32)
    ensures { (ρ : Values) → ρ number ≡ (if bit (ρ test) then ρ a else ρ b) → Holds ρ facts.old → Holds ρ facts.new }
{
    match facts.truth(test) {
        Some(true) => facts.unite(number, a),
        Some(false) => facts.unite(number, b),
        None if facts.same(a, b) => facts.unite(number, a),
        None => learn_taken(facts, number, test, a, b),
    }
}

/// Where the step's truth value isn't that of one of the two, the other one is chosen.
fn learn_taken(facts: &mut Facts, number: u32, test: u32, a: u32, b: u32)
    ensures { (ρ : Values) → ρ number ≡ (if bit (ρ test) then ρ a else ρ b) → Holds ρ facts.old → Holds ρ facts.new }
{
    if let Some(truth) = facts.truth(number) {
        if facts.is(a, !truth) {
            facts.assume(test, false);
        } else if facts.is(b, !truth) {
            facts.assume(test, true);
        }
    }
}
