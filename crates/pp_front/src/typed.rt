//! Typing all units.

ghost use Rattle.std.specs.Prelude.{◌≡◌, IfErr, IfOk, IsSomeAnd};
ghost use Rattle.pp_declared.specs.Shown.{units_of};
ghost use Rattle.pp_front.specs.Programs.{SpellUnits};
ghost use Rattle.pp_front.specs.Refuses as spec;
ghost use Rattle.pp_front.specs.Refuses.{IsUntyped, typing_line};
ghost use Rattle.pp_ordinary.specs.Laws.{AreShort};
ghost use Rattle.pp_source.specs.Told.{OnLine};
ghost use Rattle.pp_typed.specs.Stand.{Stands};
ghost use Rattle.pp_types.specs.Kinds.{OnFault, broken_rule};
ghost use Rattle.pp_types_laws.specs.Typing.{HasTyping};

use pp_fault::{Fault, Rule};
use pp_print::{NamedFault, named_fault_line};
use pp_source::Refusal;
use pp_text::Text;
use pp_translate::place_at;
use pp_tree::Unit;
use pp_types::{TypeFault, check};
use pp_well_sorted::WellSorted;
use std::alloc::Global;

/// The word for a broken rule.
fn named_rule(rule: Rule) -> NamedFault
    ensures { result ≡ spec.named_rule rule }
{
    match rule {
        Rule::Unknown => NamedFault::Unknown,
        Rule::Duplicate => NamedFault::Duplicate,
        Rule::Mismatch => NamedFault::Mismatch,
        Rule::Arity => NamedFault::Arity,
        Rule::CannotInfer => NamedFault::CannotInfer,
        Rule::Uninhabited => NamedFault::Uninhabited,
        Rule::NotABoolean => NamedFault::NotABoolean,
        Rule::OverLimit => NamedFault::OverLimit,
    }
}

/// The refusal for a broken rule.
fn broken(alloc: Global, texts: &[Text], fault: Fault) -> Refusal
    requires { Stands texts.now (fault.source, fault.at) }
    ensures { OnLine result (λ line. line ≡ typing_line texts.now fault) }
{
    let kind = named_rule(fault.rule);
    let place = place_at(texts, fault.source, fault.at);
    match named_fault_line(alloc, kind, fault.name.as_str(), place) {
        Ok(line) => Refusal::Line(line),
        Err(_) => Refusal::Memory,
    }
}

/// The refusal for a fault of typing.
fn untyped(alloc: Global, texts: &[Text], fault: TypeFault) -> Refusal
    requires { OnFault fault (λ f. Stands texts.now (f.source, f.at)) }
    ensures { OnLine result (λ line. IsSomeAnd (broken_rule fault) (λ f. line ≡ typing_line texts.now f)) }
{
    match fault.into_fault() {
        Some(fault) => broken(alloc, texts, fault),
        None => Refusal::Memory,
    }
}

/// Types units, which these texts spell: so their numbers are Ints, and their typing is well sorted.
///
/// # Errors
/// `Line` with the line on a fault that stands in the units, which have no typing. `Memory` for want of memory.
pub(crate) fn typed(alloc: Global, texts: &[Text], units: &[Unit]) -> Result<WellSorted, Refusal>
    requires spelled { SpellUnits texts.now (units_of units.now) }
    requires short { AreShort texts.now }
    ensures typing { IfOk result (HasTyping (units_of units.now)) }
    ensures refused { IfErr result (λ refusal. OnLine refusal (IsUntyped texts.now (units_of units.now))) }
{
    match check(alloc, units) {
        Ok(typed) => Ok(WellSorted::of(typed)),
        Err(fault) => Err(untyped(alloc, texts, fault)),
    }
}
