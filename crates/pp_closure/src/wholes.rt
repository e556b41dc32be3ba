//! Trees and their fields: trees that are one have the same fields, and a tree is what is made of its fields.

ghost use Rattle.std.specs.Prelude.{◌≡◌, true, IfSome, OnOk, Some, map, slice_get};
ghost use Rattle.pp_prog.specs.declared.id.CtorId.{CtorId as AnyCtor};
ghost use Rattle.pp_prog.specs.declared.value.Value.TheVariants.{Tree};
ghost use Rattle.pp_steps.specs.Meaning.{Values, ctor_field, has_ctor};
ghost use Rattle.pp_closure.specs.Facts.{Holds};
ghost use Rattle.pp_closure.specs.Keeps.{Keeps};
ghost use Rattle.pp_closure.specs.Steps.{AreFields};
ghost use Rattle.pp_closure.specs.Valuation.{Valuation};

use crate::NoMemory;
use crate::alike::{mark_of, with_mark};
use crate::class::Shape;
use crate::facts::Facts;
use crate::seen::{Deed, Seen};
use pp_list::at;
use pp_prog::CtorId;
use pp_steps::Step;

/// A step, and a constructor that its value may have.
#[derive(Clone, Copy)]
struct Whole {
    of: u32,
    ctor: CtorId,
}

/// What a step that makes a constructor, or that is a field of one, says of the other parts. The only error is want of
/// memory.
pub(crate) fn learn_wholes(
    facts: &mut Facts,
    all: &[Step],
    seen: &mut Seen,
    number: u32,
    step: &Step,
) -> Result<(), NoMemory>
    ensures { OnOk result (Keeps all.now facts.old facts.new) }
{
    match step {
        Step::Construct(ctor, fields) => {
            let mark = mark_of(facts, fields.as_slice());
            learn_same_fields(facts, all, number);
            learn_noted(
                facts,
                all,
                seen,
                Some(number),
                seen.last(Deed::Whole(ctor.0, mark)),
            );
            Ok(())
        }
        Step::CtorField(ctor, _, a) => learn_by_field(facts, all, seen, *ctor, *a),
        _ => Ok(()),
    }
}

/// The value of `a` has a field that was looked at. If all were, it may be what another step makes of them. The only
/// error is want of memory.
fn learn_by_field(
    facts: &mut Facts,
    all: &[Step],
    seen: &mut Seen,
    ctor: CtorId,
    a: u32,
) -> Result<(), NoMemory>
    ensures { OnOk result (Keeps all.now facts.old facts.new) }
{
    if let Some(mark) = mark_of_fields(facts, seen, ctor, a) {
        seen.note(Deed::Whole(ctor.0, mark), a)?;
        learn_noted(
            facts,
            all,
            seen,
            seen.last(Deed::Construct(ctor.0, mark)),
            Some(a),
        );
    }
    Ok(())
}

/// The mark of the fields of the value of `a`, where it has the constructor and all of them were looked at.
fn mark_of_fields(facts: &Facts, seen: &Seen, ctor: CtorId, a: u32) -> Option<u32> {
    let shape = facts.known(a).shape?;
    if shape.ctor.0 != ctor.0 {
        return None;
    }
    let of = facts.root(a);
    let mut mark = 0;
    if shape.fields > u32::MAX as usize {
        return None;
    }
    for place in 0..shape.fields as u32 {
        let field = seen.last(Deed::Field(ctor.0, place, of))?;
        mark = with_mark(mark, facts.root(field));
    }
    Some(mark)
}

/// If both are there, and the value of the second has the fields of which the first is made, they are one.
fn learn_noted(facts: &mut Facts, all: &[Step], seen: &Seen, made: Option<u32>, of: Option<u32>)
    ensures { Keeps all.now facts.old facts.new }
{
    if let (Some(made), Some(of)) = (made, of) {
        learn_whole(facts, all, seen, made, of);
    }
}

fn learn_whole(facts: &mut Facts, all: &[Step], seen: &Seen, made: u32, of: u32)
    ensures { Keeps all.now facts.old facts.new }
{
    if let Some(Step::Construct(ctor, fields)) = at(all, made as usize) {
        let whole = Whole { of, ctor: *ctor };
        if is_whole(facts, all, seen, whole, fields.as_slice()) {
            facts.unite(made, of);
        }
    }
}

/// Whether the value is known to have the constructor, with these fields.
fn is_whole(facts: &Facts, all: &[Step], seen: &Seen, whole: Whole, fields: &[u32]) -> bool
    ensures { (v : Valuation all.now) → Holds v.values facts.now → result ≡ true
        → v.values whole.of ≡ Tree whole.ctor (map v.values fields.now) }
{
    let shape = Shape {
        ctor: whole.ctor,
        fields: fields.len(),
    };
    if has_shape(facts, whole.of, shape) {
        return are_fields(facts, all, seen, whole, 0, fields);
    }
    false
}

/// Whether the value is known to have the constructor.
fn has_shape(facts: &Facts, of: u32, shape: Shape) -> bool
    ensures { (ρ : Values) → Holds ρ facts.now → result ≡ true → has_ctor shape.ctor shape.fields (ρ of) ≡ true }
{
    match facts.known(of).shape {
        Some(known) => known.is(shape),
        None => false,
    }
}

/// Whether the fields of the value from the place on are known to be these.
fn are_fields(
    facts: &Facts,
    all: &[Step],
    seen: &Seen,
    whole: Whole,
    place: u32,
    fields: &[u32],
) -> bool
    ensures { (v : Valuation all.now) → Holds v.values facts.now → result ≡ true
        → AreFields v.missing whole.ctor (v.values whole.of) place (map v.values fields.now) }
{
    match fields.split_first() {
        None => true,
        Some((first, rest)) => {
            if place < u32::MAX && is_field(facts, all, seen, whole, place, *first) {
                are_fields(facts, all, seen, whole, place + 1, rest)
            } else {
                false
            }
        }
    }
}

/// Whether the field of the value at the place is known to be this: a step was seen that looks at it.
fn is_field(facts: &Facts, all: &[Step], seen: &Seen, whole: Whole, place: u32, field: u32) -> bool
    ensures { (v : Valuation all.now) → Holds v.values facts.now → result ≡ true
        → ctor_field v.missing whole.ctor place (v.values whole.of) ≡ v.values field }
{
    match seen.last(Deed::Field(whole.ctor.0, place, facts.root(whole.of))) {
        None => false,
        Some(looks) => {
            if facts.same(looks, field) {
                looks_at(facts, all, looks, whole, place)
            } else {
                false
            }
        }
    }
}

/// Whether the step is the field of the value at the place.
fn looks_at(facts: &Facts, all: &[Step], number: u32, whole: Whole, place: u32) -> bool
    ensures { (v : Valuation all.now) → Holds v.values facts.now → result ≡ true
        → v.values number ≡ ctor_field v.missing whole.ctor place (v.values whole.of) }
{
    match at(all, number as usize) {
        Some(Step::CtorField(ctor, at_place, a)) => {
            if ctor.0 == whole.ctor.0 && *at_place == place {
                facts.same(*a, whole.of)
            } else {
                false
            }
        }
        _ => false,
    }
}

/// Another step that is known to make the step's value has the same fields.
fn learn_same_fields(facts: &mut Facts, all: &[Step], number: u32)
    ensures { Keeps all.now facts.old facts.new }
{
    if let Some(maker) = facts.known(number).maker {
        if let (Some(fields), Some(others)) = (fields_at(all, number), fields_at(all, maker)) {
            unite_all(facts, fields, others);
        }
    }
}

/// The fields of which the step makes a constructor.
fn fields_at(all: &[Step], number: u32) -> Option<&[u32]>
    ensures { IfSome result (λ fields. (v : Valuation all.now)
        → (c : AnyCtor) × (v.values number ≡ Tree c (map v.values fields.now))) }
{
    match at(all, number as usize) {
        Some(Step::Construct(_, fields)) => Some(fields.as_slice()),
        _ => None,
    }
}

/// The steps at each place have one value.
fn unite_all(facts: &mut Facts, xs: &[u32], ys: &[u32])
    ensures { (ρ : Values) → map ρ xs.now ≡ map ρ ys.now → Holds ρ facts.old → Holds ρ facts.new }
{
    if let (Some((x, xs)), Some((y, ys))) = (xs.split_first(), ys.split_first()) {
        facts.unite(*x, *y);
        unite_all(facts, xs, ys);
    }
}
