//! Calls that are left open: which have one answer.

ghost use Rattle.std.specs.Prelude.{◌≡◌, ℕ, Some, IfSome, true, slice_get};
ghost use Rattle.pp_prog.specs.declared.value.Value.TheVariants.{Bool as Truth};
ghost use Rattle.pp_steps.specs.Meaning.{Missing, Values, answer_of, bit, is_answered};
ghost use Rattle.pp_closure.specs.Calls.{AskAlike, HasOne, IsAnswerAt};
ghost use Rattle.pp_closure.specs.Facts.{Holds};
ghost use Rattle.pp_closure.specs.Steps as looked;
ghost use Rattle.pp_closure.specs.Valuation.{Valuation};

use crate::alike::all_same;
use crate::facts::Facts;
use pp_list::at;
use pp_prog::Sort;
use pp_steps::{OpenCall, Step};

/// Whether the two calls are of one function, on arguments that are known to have the same values.
pub(crate) fn ask_alike(facts: &Facts, one: &OpenCall, other: &OpenCall) -> bool
    ensures { (ρ : Values) → Holds ρ facts.now → result ≡ true → AskAlike ρ one.now other.now }
{
    if one.callee.0 == other.callee.0 {
        if have_one_type(one, other) {
            return all_same(facts, one.args.as_slice(), other.args.as_slice());
        }
    }
    false
}

/// Whether the sorts of their parameters and of their results are the same.
fn have_one_type(one: &OpenCall, other: &OpenCall) -> bool
    ensures params { result ≡ true → one.now.params ≡ other.now.params }
    ensures result { result ≡ true → one.now.result ≡ other.now.result }
{
    if is_one_sort(one.result, other.result) {
        return are_one_sorts(one.params.as_slice(), other.params.as_slice());
    }
    false
}

fn is_one_sort(one: Sort, other: Sort) -> bool
    ensures { result ≡ true → one ≡ other }
{
    one == other
}

fn are_one_sorts(xs: &[Sort], ys: &[Sort]) -> bool
    ensures { result ≡ true → xs.now ≡ ys.now }
{
    match (xs.split_first(), ys.split_first()) {
        (None, None) => true,
        (Some((x, xs)), Some((y, ys))) => is_one_sort(*x, *y) && are_one_sorts(xs, ys),
        _ => false,
    }
}

/// Whether the two calls are known to be reached, wait as long and ask alike, so that both or none has an answer.
pub(crate) fn are_had_alike(facts: &Facts, one: &OpenCall, other: &OpenCall) -> bool
    ensures reached { (ρ : Values) → Holds ρ facts.now → result ≡ true → bit (ρ one.now.reach) ≡ true }
    ensures other { (ρ : Values) → Holds ρ facts.now → result ≡ true → bit (ρ other.now.reach) ≡ true }
    ensures alike { (missing : Missing) (ρ : Values) → Holds ρ facts.now → result ≡ true
        → answer_of missing ρ one.now ≡ answer_of missing ρ other.now }
{
    if facts.is(one.reach, true) {
        if facts.is(other.reach, true) {
            return wait_and_ask_alike(facts, one, other);
        }
    }
    false
}

fn wait_and_ask_alike(facts: &Facts, one: &OpenCall, other: &OpenCall) -> bool
    ensures { (missing : Missing) (ρ : Values) → Holds ρ facts.now → result ≡ true
        → answer_of missing ρ one.now ≡ answer_of missing ρ other.now }
{
    if one.wait == other.wait {
        return ask_alike(facts, one, other);
    }
    false
}

/// The call whose answer the step is, where it is known to be reached and to have one.
pub(crate) fn answered_at<'a>(facts: &Facts, all: &'a [Step], number: u32) -> Option<&'a OpenCall>
    ensures { IfSome result (λ c. (v : Valuation all.now) → Holds v.values facts.now
        → IsAnswerAt v.missing v.values number c.now) }
{
    match at(all, number as usize) {
        Some(Step::Answer(call)) => {
            if is_answered(facts, all, number, call) {
                Some(call)
            } else {
                None
            }
        }
        _ => None,
    }
}

/// Whether the call whose answer the step is is known to be reached and to have one: the step before says so.
fn is_answered(facts: &Facts, all: &[Step], number: u32, call: &OpenCall) -> bool
    ensures { (v : Valuation all.now) → Holds v.values facts.now → result ≡ true → (bit (v.values call.now.reach) ≡ true)
        × HasOne v.missing v.values call.now }
{
    if number == 0 {
        return false;
    }
    match at(all, (number - 1) as usize) {
        Some(Step::HasAnswer(had)) => is_had(facts, number - 1, had, call),
        _ => false,
    }
}

/// Whether the step is known to say that the first of two calls has an answer, and with it the second.
fn is_had(facts: &Facts, number: u32, had: &OpenCall, call: &OpenCall) -> bool
    ensures reached { (ρ : Values) → Holds ρ facts.now → result ≡ true → bit (ρ call.now.reach) ≡ true }
    ensures has { (missing : Missing) (ρ : Values) → Holds ρ facts.now → result ≡ true → (bit (ρ had.now.reach) ≡ true
        → ρ number ≡ Truth (is_answered (answer_of missing ρ had.now))) → HasOne missing ρ call.now }
{
    if facts.is(number, true) {
        return are_had_alike(facts, had, call);
    }
    false
}
