//! What sums and differences say of equal values: any two of a sum and its two parts determine the third.

ghost use Rattle.std.specs.Prelude.{◌≡◌, OnOk, slice_get};
ghost use Rattle.pp_steps.specs.Meaning.{Values};
ghost use Rattle.pp_closure.specs.Facts.{Holds};
ghost use Rattle.pp_closure.specs.Keeps.{Keeps};
ghost use Rattle.pp_closure.specs.Steps as looked;
ghost use Rattle.pp_closure.specs.Sums.{Adds, IsExact, MayAdd};
ghost use Rattle.pp_closure.specs.Valuation.{Valuation};

use crate::NoMemory;
use crate::amounts::learn_amounts;
use crate::bounds::learn_number;
use crate::facts::Facts;
use crate::seen::{Deed, Seen};
use pp_list::at;
use pp_prog::BinaryOp;
use pp_steps::Step;

/// A number that is the sum of two others, which wraps.
#[derive(Clone, Copy)]
pub(crate) struct Addition {
    pub sum: u32,
    pub one: u32,
    pub other: u32,
}

/// What the step with the number says of a sum. A difference says that its first operand is one, of itself and the
/// second.
pub(crate) fn addition_at(all: &[Step], number: u32) -> Option<Addition>
    ensures { (v : Valuation all.now) → MayAdd v.values result }
{
    addition_in(all, number)
}

fn addition_in(all: &[Step], number: u32) -> Option<Addition>
    ensures { result ≡ looked.addition_in number (slice_get all.now number) }
{
    match at(all, number as usize) {
        Some(Step::Binary(op, a, b)) => addition_of(*op, number, *a, *b),
        _ => None,
    }
}

fn addition_of(op: BinaryOp, number: u32, a: u32, b: u32) -> Option<Addition>
    ensures { result ≡ looked.addition_of op number a b }
{
    match op {
        BinaryOp::Add => Some(Addition {
            sum: number,
            one: a,
            other: b,
        }),
        BinaryOp::Sub => Some(Addition {
            sum: a,
            one: number,
            other: b,
        }),
        _ => None,
    }
}

/// The same with the parts turned round.
pub(crate) fn turned(it: Addition) -> Addition
    ensures adds { (ρ : Values) → Adds ρ it → Adds ρ result }
    ensures exact { (ρ : Values) → IsExact ρ it → IsExact ρ result }
    ensures back { (ρ : Values) → IsExact ρ result → IsExact ρ it }
{
    Addition {
        sum: it.sum,
        one: it.other,
        other: it.one,
    }
}

/// What the step says if it is a sum or a difference, by itself and together with those that were seen to share two of
/// the three numbers. The only error is want of memory.
pub(crate) fn learn_addition(
    facts: &mut Facts,
    all: &[Step],
    seen: &mut Seen,
    number: u32,
) -> Result<(), NoMemory>
    ensures { OnOk result (Keeps all.now facts.old facts.new) }
{
    match addition_at(all, number) {
        Some(it) => {
            learn_nothing(facts, it);
            learn_nothing(facts, turned(it));
            learn_amounts(facts, it);
            learn_thirds(facts, all, seen, number, it)
        }
        None => Ok(()),
    }
}

/// If the first part is 0, the second is the sum, and the other way round.
fn learn_nothing(facts: &mut Facts, it: Addition)
    ensures { (ρ : Values) → Adds ρ it → Holds ρ facts.old → Holds ρ facts.new }
{
    if facts.is_zero(it.one) {
        facts.unite(it.sum, it.other);
    } else if facts.same(it.sum, it.other) {
        learn_number(facts, it.one, 0);
    }
}

/// What follows together with steps that share both parts, or the sum and a part. The only error is want of memory.
fn learn_thirds(
    facts: &mut Facts,
    all: &[Step],
    seen: &mut Seen,
    number: u32,
    it: Addition,
) -> Result<(), NoMemory>
    ensures { OnOk result ((v : Valuation all.now) → Adds v.values it → Holds v.values facts.old
        → Holds v.values facts.new) }
{
    let (sum, one, other) = (facts.root(it.sum), facts.root(it.one), facts.root(it.other));
    let like = seen.note(Deed::Sum(one.min(other), one.max(other)), number)?;
    learn_third(facts, all, it, like);
    let like = seen.note(Deed::Rest(sum, one), number)?;
    learn_third(facts, all, it, like);
    let like = seen.note(Deed::Rest(sum, other), number)?;
    learn_third(facts, all, it, like);
    Ok(())
}

/// What follows together with the other step, if it is a sum or a difference.
fn learn_third(facts: &mut Facts, all: &[Step], it: Addition, like: Option<u32>)
    ensures { (v : Valuation all.now) → Adds v.values it → Holds v.values facts.old → Holds v.values facts.new }
{
    if let Some(like) = like {
        if let Some(like) = addition_at(all, like) {
            learn_alike_sums(facts, it, like);
            learn_alike_sums(facts, it, turned(like));
        }
    }
}

/// Of two sums of which two of the three numbers are the same, the third is too.
fn learn_alike_sums(facts: &mut Facts, it: Addition, like: Addition)
    ensures { (ρ : Values) → Adds ρ it → Adds ρ like → Holds ρ facts.old → Holds ρ facts.new }
{
    if facts.same(it.one, like.one) {
        learn_by_part(facts, it, like);
    } else if facts.same(it.sum, like.sum) {
        learn_by_sum(facts, it, like);
    }
}

/// The first parts are the same.
fn learn_by_part(facts: &mut Facts, it: Addition, like: Addition)
    ensures { (ρ : Values) → ρ it.one ≡ ρ like.one → Adds ρ it → Adds ρ like → Holds ρ facts.old
        → Holds ρ facts.new }
{
    if facts.same(it.other, like.other) {
        facts.unite(it.sum, like.sum);
    } else if facts.same(it.sum, like.sum) {
        facts.unite(it.other, like.other);
    }
}

/// The sums are the same.
fn learn_by_sum(facts: &mut Facts, it: Addition, like: Addition)
    ensures { (ρ : Values) → ρ it.sum ≡ ρ like.sum → Adds ρ it → Adds ρ like → Holds ρ facts.old
        → Holds ρ facts.new }
{
    if facts.same(it.other, like.other) {
        facts.unite(it.one, like.one);
    }
}
