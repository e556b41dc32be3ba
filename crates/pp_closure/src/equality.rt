//! What steps on the equality of values say.

ghost use Rattle.std.specs.Prelude.{◌≡◌, ◌<◌, Bool, true, false, IfOk, OnOk, length, slice_get};
ghost use Rattle.pp_prog.specs.declared.sort.Sort.TheVariants as sort;
ghost use Rattle.pp_prog.specs.declared.value.Value.TheVariants.{Bool as Truth};
ghost use Rattle.pp_prog.specs.Fits.{same_truth};
ghost use Rattle.pp_eval.specs.Equality.{equal};
ghost use Rattle.pp_steps.specs.Meaning.{Values, bit};
ghost use Rattle.pp_closure.specs.Facts.{Holds, IsAnswer};
ghost use Rattle.pp_closure.specs.Steps as looked;
ghost use Rattle.pp_closure.specs.Valuation.{Valuation};

use crate::NoMemory;
use crate::bounds::learn_apart;
use crate::descents::is_int;
use crate::facts::Facts;
use crate::sums::equal_sums;
use crate::truths::learn_not;
use pp_list::at;
use pp_prog::Sort;
use pp_steps::Step;
use std::alloc::Global;

/// The step says whether two are equal, or whether they differ. It is known what it says where it is known whether they
/// are; and where it says that they are equal they have one value. The only error is want of memory.
pub(crate) fn learn_equality(
    alloc: Global,
    facts: &mut Facts,
    all: &[Step],
    number: u32,
    a: u32,
    b: u32,
    positive: bool,
) -> Result<(), NoMemory>
    ensures { OnOk result ((v : Valuation all.now) → v.sorts a ≡ v.sorts b → a < length all.now → b < length all.now
        → bit (v.values number) ≡ same_truth positive (equal (v.values a) (v.values b))
        → Holds v.values facts.old → Holds v.values facts.new) }
{
    let equal = are_equal(alloc, facts, all, a, b)?;
    learn_known(facts, number, positive, equal);
    learn_united(facts, number, a, b, positive);
    learn_opposite(facts, all, number, (a, b), positive);
    learn_differing(facts, all, number, (a, b), positive);
    Ok(())
}

/// The step is as it says, where it is known whether the two are equal.
fn learn_known(facts: &mut Facts, number: u32, positive: bool, equal: Option<bool>)
    ensures { (ρ : Values) (truth : Bool) → IsAnswer equal truth → bit (ρ number) ≡ same_truth positive truth
        → Holds ρ facts.old → Holds ρ facts.new }
{
    if let Some(equal) = equal {
        facts.assume(number, equal == positive);
    }
}

/// The two have one value, where the step is known to say so.
fn learn_united(facts: &mut Facts, number: u32, a: u32, b: u32, positive: bool)
    ensures { (ρ : Values) → bit (ρ number) ≡ same_truth positive (equal (ρ a) (ρ b)) → Holds ρ facts.old
        → Holds ρ facts.new }
{
    if facts.is(number, positive) {
        facts.unite(a, b);
    }
}

/// Of two truth values that are known to differ each is what the other isn't.
fn learn_opposite(facts: &mut Facts, all: &[Step], number: u32, two: (u32, u32), positive: bool)
    ensures { (v : Valuation all.now) → v.sorts two.0 ≡ v.sorts two.1 → two.0 < length all.now → two.1 < length all.now
        → bit (v.values number) ≡ same_truth positive (equal (v.values two.0) (v.values two.1))
        → Holds v.values facts.old → Holds v.values facts.new }
{
    if facts.is(number, !positive) {
        if are_truths(all, two) {
            learn_not(facts, two.1, two.0);
        }
    }
}

/// Of two numbers that are known to differ the one is no bound of the other.
fn learn_differing(facts: &mut Facts, all: &[Step], number: u32, two: (u32, u32), positive: bool)
    ensures { (v : Valuation all.now) → v.sorts two.0 ≡ v.sorts two.1 → two.0 < length all.now → two.1 < length all.now
        → bit (v.values number) ≡ same_truth positive (equal (v.values two.0) (v.values two.1))
        → Holds v.values facts.old → Holds v.values facts.new }
{
    if facts.is(number, !positive) {
        if are_ints(all, two) {
            learn_apart(facts, two.0, two.1);
            learn_apart(facts, two.1, two.0);
        }
    }
}

/// Whether one of the two is a number, as far as the steps by themselves show it.
fn are_ints(all: &[Step], two: (u32, u32)) -> bool
    ensures { (v : Valuation all.now) → v.sorts two.0 ≡ v.sorts two.1 → result ≡ true → v.sorts two.0 ≡ sort.Int }
{
    if is_int(all, two.0) {
        true
    } else {
        is_int(all, two.1)
    }
}

/// Whether one of the two is a truth value, as far as the steps by themselves show it.
fn are_truths(all: &[Step], two: (u32, u32)) -> bool
    ensures { (v : Valuation all.now) → v.sorts two.0 ≡ v.sorts two.1 → result ≡ true → v.sorts two.0 ≡ sort.Bool }
{
    if is_truth(all, two.0) {
        true
    } else {
        is_truth(all, two.1)
    }
}

/// Whether the values of the two are equal, where that is known. The only error is want of memory.
fn are_equal(
    alloc: Global,
    facts: &Facts,
    all: &[Step],
    a: u32,
    b: u32,
) -> Result<Option<bool>, NoMemory>
    ensures { IfOk result (λ r. (v : Valuation all.now) → v.sorts a ≡ v.sorts b → a < length all.now
        → b < length all.now → Holds v.values facts.now → IsAnswer r (equal (v.values a) (v.values b))) }
{
    if facts.same(a, b) {
        return Ok(Some(true));
    }
    match equal_by_class(facts, all, a, b) {
        Some(equal) => Ok(Some(equal)),
        None => {
            let equal = equal_sums(alloc, facts, all, a, b)?;
            Ok(equal)
        }
    }
}

/// Whether they are, by the truth values and the constructors that they are known to be.
fn equal_by_class(facts: &Facts, all: &[Step], a: u32, b: u32) -> Option<bool>
    ensures { (v : Valuation all.now) → a < length all.now → b < length all.now → Holds v.values facts.now
        → IsAnswer result (equal (v.values a) (v.values b)) }
{
    let (one, other) = (facts.known(a), facts.known(b));
    if one.excludes(&other) {
        Some(false)
    } else if facts.is(a, true) && facts.is(b, true) {
        Some(true)
    } else if are_false(facts, all, a, b) {
        Some(true)
    } else {
        None
    }
}

/// Whether both are truth values, and false.
fn are_false(facts: &Facts, all: &[Step], a: u32, b: u32) -> bool
    ensures { (v : Valuation all.now) → a < length all.now → b < length all.now → Holds v.values facts.now
        → result ≡ true → v.values a ≡ v.values b }
{
    is_false(facts, all, a) && is_false(facts, all, b)
}

/// Whether the step is a truth value, and false.
fn is_false(facts: &Facts, all: &[Step], number: u32) -> bool
    ensures { (v : Valuation all.now) → number < length all.now → Holds v.values facts.now → result ≡ true
        → v.values number ≡ Truth false }
{
    is_truth(all, number) && facts.is(number, false)
}

/// Whether the step is a truth value, as far as the step by itself shows it.
fn is_truth(all: &[Step], number: u32) -> bool
    ensures { (v : Valuation all.now) → result ≡ true → v.sorts number ≡ sort.Bool }
{
    truth_in(all, number)
}

fn truth_in(all: &[Step], number: u32) -> bool
    ensures { result ≡ looked.truth_in (slice_get all.now number) }
{
    match at(all, number as usize) {
        Some(Step::Answer(call)) => is_bool(call.result),
        Some(Step::Open(sort)) => is_bool(*sort),
        Some(Step::HasAnswer(_)) => true,
        Some(Step::Bool(_)) => true,
        Some(Step::Not(_)) => true,
        Some(Step::Both(..)) => true,
        Some(Step::IsCtor(..)) => true,
        _ => false,
    }
}

fn is_bool(sort: Sort) -> bool
    ensures { result ≡ looked.is_bool sort }
{
    match sort {
        Sort::Bool => true,
        _ => false,
    }
}
