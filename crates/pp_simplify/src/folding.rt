//! Steps whose values are known before the run.

ghost use Rattle.std.specs.Prelude.{◌≡◌, slice_get, IfOk, MatchOption};
ghost use Rattle.pp_steps.specs.declared.step.Step.{Step};
ghost use Rattle.pp_steps.specs.declared.step.Step.TheVariants as steps;
ghost use Rattle.pp_simplify.specs.Folded as spec;
ghost use Rattle.pp_simplify.specs.Names.{named};
ghost use Rattle.pp_simplify.specs.Operands.{renamed};

use crate::NoMemory;
use crate::literals::literal;
use crate::renaming::{self, Names};
use pp_list::{Items, at};
use pp_prog::CtorId;
use pp_steps::{Step, Steps};
use std::alloc::Global;

/// The steps, each with what is known of its value in its place, and the names of those that have an earlier step's
/// value.
pub(crate) struct Folding {
    pub steps: Steps,
    pub names: Names,
}

/// Folds the steps, from the first one on. The only error is want of memory.
pub(crate) fn fold(alloc: Global, steps: &[Step]) -> Result<Folding, NoMemory>
    ensures steps { IfOk result (λ f. f.steps ≡ (spec.all_folded steps.now).steps) }
    ensures names { IfOk result (λ f. f.names ≡ (spec.all_folded steps.now).names) }
{
    let mut news = Items::new(alloc);
    let mut names = Items::new(alloc);
    for step in steps {
        let new = next(alloc, news.as_slice(), names.as_slice(), step)?;
        names.push(source(news.as_slice(), &new))?;
        news.push(new)?;
    }
    Ok(Folding { steps: news, names })
}

/// What stands behind these steps in the place of the step, whose operands have these names.
fn next(alloc: Global, news: &[Step], names: &[Option<u32>], step: &Step) -> Result<Step, NoMemory>
    ensures { IfOk result (λ t. t ≡ spec.folded news.now (renamed (named names.now) step.now)) }
{
    let step = renaming::renamed(alloc, names, step)?;
    match folded(news, &step) {
        Some(new) => Ok(new),
        None => Ok(step),
    }
}

/// The earlier step that has the value of the step behind these ones, where one is known.
fn source(news: &[Step], step: &Step) -> Option<u32>
    ensures { result ≡ spec.source news.now step.now }
{
    match step {
        Step::Choose(_, a, b) if a == b => Some(*a),
        Step::CtorField(ctor, place, a) => field(news, *ctor, *place, *a),
        _ => None,
    }
}

/// The field of the constructor at the place, where the step with the number makes that constructor.
fn field(news: &[Step], ctor: CtorId, place: u32, a: u32) -> Option<u32>
    ensures { result ≡ spec.field_of ctor place (slice_get news.now a) }
{
    match at(news, a as usize) {
        Some(Step::Construct(made, fields)) if ctor.0 == made.0 => {
            fields.get(place as usize).copied()
        }
        _ => None,
    }
}

/// What stands in the place of the step behind these ones, if another one does.
fn folded(news: &[Step], step: &Step) -> Option<Step>
    ensures { MatchOption result (spec.folded news.now step.now ≡ step.now) (λ t. t ≡ spec.folded news.now step.now) }
{
    match step {
        Step::Not(a) => turned(*a, bool_at(news, *a)),
        Step::Both(a, b) => both(*a, *b, bool_at(news, *a), bool_at(news, *b)),
        Step::Choose(c, a, b) => {
            let left = bool_at(news, *a);
            let right = bool_at(news, *b);
            chosen(*c, *a, *b, bool_at(news, *c), left, right)
        }
        Step::IsCtor(ctor, count, a) => tested(news, *ctor, *count, *a),
        _ => literal(news, step),
    }
}

/// The truth value that the step with the number is, if it is one.
fn bool_at(news: &[Step], number: u32) -> Option<bool>
    ensures { result ≡ spec.bool_at news.now number }
{
    match at(news, number as usize) {
        Some(Step::Bool(b)) => Some(*b),
        _ => None,
    }
}

/// What stands in the place of a negation.
fn turned(a: u32, value: Option<bool>) -> Option<Step>
    ensures { MatchOption result (spec.turned a value ≡ steps.Not a) (λ t. t ≡ spec.turned a value) }
{
    match value {
        Some(b) => Some(Step::Bool(!b)),
        None => None,
    }
}

/// What stands in the place of a conjunction.
fn both(a: u32, b: u32, left: Option<bool>, right: Option<bool>) -> Option<Step>
    ensures { MatchOption result (spec.both a b left right ≡ steps.Both a b) (λ t. t ≡ spec.both a b left right) }
{
    match (left, right) {
        (Some(false), _) | (_, Some(false)) => Some(Step::Bool(false)),
        (Some(true), Some(true)) => Some(Step::Bool(true)),
        _ => None,
    }
}

/// What stands in the place of a choice.
fn chosen(
    c: u32,
    a: u32,
    b: u32,
    test: Option<bool>,
    left: Option<bool>,
    right: Option<bool>,
) -> Option<Step>
    ensures { MatchOption result (spec.chosen c a b test left right ≡ steps.Choose c a b)
        (λ t. t ≡ spec.chosen c a b test left right) }
{
    match test {
        Some(true) => Some(taken(c, a, left)),
        Some(false) => Some(taken(c, b, right)),
        None => None,
    }
}

/// The operand that is chosen, where it is the one with this number.
fn taken(c: u32, a: u32, value: Option<bool>) -> Step
    ensures { result ≡ spec.taken c a value }
{
    match value {
        Some(v) => Step::Bool(v),
        None => Step::Choose(c, a, a),
    }
}

/// What stands in the place of a test for a constructor.
fn tested(news: &[Step], ctor: CtorId, count: u32, a: u32) -> Option<Step>
    ensures { MatchOption result (spec.tested ctor count a (slice_get news.now a) ≡ steps.IsCtor ctor count a)
        (λ t. t ≡ spec.tested ctor count a (slice_get news.now a)) }
{
    match at(news, a as usize) {
        Some(Step::Construct(made, fields)) => {
            let same = ctor.0 == made.0 && count as usize == fields.len();
            Some(Step::Bool(same))
        }
        _ => None,
    }
}
