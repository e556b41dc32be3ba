//! The program of typed units, and its plan.

ghost use Rattle.std.specs.Prelude.{◌≡◌, ◌<◌, IfErr, IfOk, Some, length, slice_get};
ghost use Rattle.pp_checks.specs.Plan.{IsPlanOf};
ghost use Rattle.pp_front.specs.Refuses.{BreaksRules, HasTooMany};
ghost use Rattle.pp_mono.specs.Concrete.{IsConcrete};
ghost use Rattle.pp_print.specs.Faults.{named_fault_text};
ghost use Rattle.pp_prog.specs.declared.expr.Function.{Function};
ghost use Rattle.pp_source.specs.Told.{OnLine};
ghost use Rattle.pp_typed.specs.Limits.{IsSmall};
ghost use Rattle.pp_typed.specs.Stand.{TypedStands};

use pp_checks::{Plan, PlanFault, plan};
use pp_mono::{MonoFault, concrete};
use pp_print::{NamedFault, named_fault_line, too_many_instances_line};
use pp_prog::{FunctionId, Program};
use pp_source::Refusal;
use pp_text::Text;
use pp_well_sorted::WellSorted;
use std::alloc::Global;

/// The program of typed units, which stand in these texts.
///
/// # Errors
/// `Line` where there are more than 512 instances. `Memory` for want of memory.
pub(crate) fn program(alloc: Global, typed: &WellSorted, texts: &[Text]) -> Result<Program, Refusal>
    requires small { IsSmall typed.now }
    requires stand { TypedStands texts.now typed.now }
    ensures program { IfOk result (IsConcrete typed.now texts.now) }
    ensures refused { IfErr result (λ refusal. OnLine refusal (HasTooMany typed.now)) }
{
    match concrete(alloc, typed, texts) {
        Ok(program) => Ok(program),
        Err(MonoFault::TooManyInstances) => Err(Refusal::Line(String::from_str(
            alloc,
            too_many_instances_line(),
        )?)),
        Err(MonoFault::Memory) => Err(Refusal::Memory),
    }
}

/// The refusal for a function that breaks a rule of measures.
fn breaks(alloc: Global, kind: NamedFault, program: &Program, f: FunctionId) -> Refusal
    requires { f.0 < length program.now.functions }
    ensures { (function : Function) → slice_get program.now.functions f.0 ≡ Some function
        → OnLine result (λ line. line ≡ named_fault_text kind function.name function.place) }
{
    let function = program.function(f);
    match named_fault_line(alloc, kind, function.name.as_str(), function.place) {
        Ok(line) => Refusal::Line(line),
        Err(_) => Refusal::Memory,
    }
}

/// The plan of a program.
///
/// # Errors
/// `Line` with the line on the first function that breaks a rule of measures. `Memory` for want of memory.
pub(crate) fn planned(alloc: Global, program: &Program) -> Result<Plan, Refusal>
    ensures plan { IfOk result (λ plan. IsPlanOf plan program.now) }
    ensures refused { IfErr result (λ refusal. OnLine refusal (BreaksRules program.now)) }
{
    match plan(alloc, program) {
        Ok(plan) => Ok(plan),
        Err(PlanFault::NoMeasure(f)) => Err(breaks(alloc, NamedFault::NoMeasure, program, f)),
        Err(PlanFault::MeasureShape(f)) => Err(breaks(alloc, NamedFault::MeasureShape, program, f)),
        Err(PlanFault::ContractCycle(f)) => Err(breaks(
            alloc,
            NamedFault::ContractCycle,
            program,
            f,
        )),
        Err(PlanFault::Memory) => Err(Refusal::Memory),
    }
}
