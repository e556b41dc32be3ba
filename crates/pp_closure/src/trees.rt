//! What steps on constructors and their fields say.

ghost use Rattle.std.specs.Prelude.{◌≡◌, ℕ, true, OnOk, MatchOption, slice_get};
ghost use Rattle.pp_steps.specs.Meaning.{Values, bit, ctor_field, has_ctor};
ghost use Rattle.pp_closure.specs.Facts.{Holds, IsConstant};
ghost use Rattle.pp_closure.specs.Steps as looked;
ghost use Rattle.pp_closure.specs.Valuation.{Valuation};

use crate::NoMemory;
use crate::class::Shape;
use crate::facts::Facts;
use crate::seen::{Deed, Seen};
use pp_list::at;
use pp_prog::CtorId;
use pp_steps::Step;

/// The step makes a constructor. The only error is want of memory.
pub(crate) fn learn_construct(
    facts: &mut Facts,
    seen: &mut Seen,
    number: u32,
    shape: Shape,
) -> Result<(), NoMemory>
    ensures { OnOk result ((ρ : Values) → has_ctor shape.ctor shape.fields (ρ number) ≡ true → Holds ρ facts.old
        → Holds ρ facts.new) }
{
    facts.shape(number, shape);
    facts.maker(number);
    learn_constant(facts, seen, number)
}

/// The step is true where the value of `a` has the constructor. The only error is want of memory.
pub(crate) fn learn_test(
    facts: &mut Facts,
    seen: &mut Seen,
    number: u32,
    shape: Shape,
    a: u32,
) -> Result<(), NoMemory>
    ensures { OnOk result ((ρ : Values) → bit (ρ number) ≡ has_ctor shape.ctor shape.fields (ρ a) → Holds ρ facts.old
        → Holds ρ facts.new) }
{
    match facts.known(a).shape {
        Some(known) => {
            facts.assume(number, known.is(shape));
            Ok(())
        }
        None if facts.is(number, true) => {
            facts.shape(a, shape);
            learn_constant(facts, seen, a)
        }
        None => Ok(()),
    }
}

/// All values of a constructor without fields are one. The only error is want of memory.
fn learn_constant(facts: &mut Facts, seen: &mut Seen, number: u32) -> Result<(), NoMemory>
    ensures { OnOk result ((ρ : Values) → Holds ρ facts.old → Holds ρ facts.new) }
{
    if let Some(ctor) = constant(facts, number) {
        let before = seen.note(Deed::Constant(ctor), number)?;
        learn_same_constant(facts, number, before);
    }
    Ok(())
}

/// If the two are known to be one constructor without fields, they are one value.
fn learn_same_constant(facts: &mut Facts, number: u32, other: Option<u32>)
    ensures { (ρ : Values) → Holds ρ facts.old → Holds ρ facts.new }
{
    if let Some(other) = other {
        if are_one_constant(constant(facts, number), constant(facts, other)) {
            facts.unite(number, other);
        }
    }
}

fn are_one_constant(one: Option<u32>, other: Option<u32>) -> bool
    ensures { result ≡ true → (c : ℕ) × (one ≡ Some c) × (other ≡ Some c) }
{
    match (one, other) {
        (Some(one), Some(other)) => one == other,
        _ => false,
    }
}

/// The constructor without fields that the step's value is known to be.
fn constant(facts: &Facts, number: u32) -> Option<u32>
    ensures { (ρ : Values) → Holds ρ facts.now → IsConstant result (ρ number) }
{
    match facts.known(number).shape {
        Some(shape) if shape.fields == 0 => Some(shape.ctor.0),
        _ => None,
    }
}

/// The step is the field of the constructor at the place of the value of `a`.
pub(crate) fn learn_field(
    facts: &mut Facts,
    all: &[Step],
    number: u32,
    ctor: CtorId,
    place: u32,
    a: u32,
)
    ensures { (v : Valuation all.now) → v.values number ≡ ctor_field v.missing ctor place (v.values a)
        → Holds v.values facts.old → Holds v.values facts.new }
{
    if let Some(field) = made_field(facts, all, ctor, place, a) {
        facts.unite(number, field);
    }
}

/// The step that is the field of the constructor at the place, where the value of `a` is known to be made so.
fn made_field(facts: &Facts, all: &[Step], ctor: CtorId, place: u32, a: u32) -> Option<u32>
    ensures { (v : Valuation all.now) → Holds v.values facts.now
        → MatchOption result Unit (λ f. ctor_field v.missing ctor place (v.values a) ≡ v.values f) }
{
    match facts.known(a).maker {
        Some(maker) => field_at(all, ctor, place, maker),
        None => None,
    }
}

/// The field at the place of the step, where that makes the constructor.
fn field_at(all: &[Step], ctor: CtorId, place: u32, maker: u32) -> Option<u32>
    ensures { (v : Valuation all.now)
        → MatchOption result Unit (λ f. ctor_field v.missing ctor place (v.values maker) ≡ v.values f) }
{
    field_in(all, ctor, place, maker)
}

fn field_in(all: &[Step], ctor: CtorId, place: u32, maker: u32) -> Option<u32>
    ensures { result ≡ looked.field_in ctor place (slice_get all.now maker) }
{
    match at(all, maker as usize) {
        Some(Step::Construct(made, fields)) if made.0 == ctor.0 => {
            fields.get(place as usize).copied()
        }
        _ => None,
    }
}
