//! The rules of measures.

ghost use Rattle.std.specs.Prelude.{◌≡◌, ◌↔◌, ◌<◌, ◌≤◌, IfOk, IsTrue, MatchResult, Some, length, slice_get};
ghost use Rattle.std.specs.List.{list_all};
ghost use Rattle.pp_graph.specs.Reaches.{calls_of};
ghost use Rattle.pp_prog.specs.Calls.{OneGroup, call_table, function_calls};
ghost use Rattle.pp_prog.specs.Valid as valid;
ghost use Rattle.pp_checks.specs.Rules.{CallsInto, HasContractCycle, HasShape, IsFault, IsFaultAt, IsFirstMeasured};
ghost use Rattle.pp_checks.specs.Rules.{KeepRules, KeepsRules, LacksMeasure, is_component, measure_sorts};

use crate::sorts::measure_sorts;
use crate::{NoMemory, PlanFault};
use pp_list::Items;
use pp_prog::{Function, FunctionId, Program, Sort, Sorts, contract_calls};
use std::alloc::Global;

/// The most components that a measure may have.
const MOST_COMPONENTS: usize = 4;

/// Whether each function keeps the rules of measures; else the first that breaks one, and the first rule that it
/// breaks.
pub(crate) fn check_rules(
    alloc: Global,
    program: &Program,
    calls: &[Items<u32>],
) -> Result<(), PlanFault>
    requires { calls.now ≡ call_table program.now.functions }
    ensures { MatchResult result (λ _. KeepRules program.now.types program.now.functions (length program.now.functions))
        (λ e. IsFault program.now.types program.now.functions e) }
{
    for f in 0..program.function_count() {
        let f = FunctionId(f);
        match check_function(alloc, program, f, program.function(f), called_by(calls, f)) {
            Ok(()) => {}
            Err(fault) => return Err(fault),
        }
    }
    Ok(())
}

fn called_by(calls: &[Items<u32>], f: FunctionId) -> &[u32]
    requires { f.0 < length calls.now }
    ensures { result.now ≡ calls_of calls.now f.0 }
{
    calls[f.0 as usize].as_slice()
}

/// Whether function f keeps the rules; else the first that it breaks.
fn check_function(
    alloc: Global,
    program: &Program,
    f: FunctionId,
    function: &Function,
    called: &[u32],
) -> Result<(), PlanFault>
    requires here { slice_get program.now.functions f.0 ≡ Some function.now }
    requires calls { called.now ≡ function_calls function.now }
    ensures { MatchResult result (λ _. KeepsRules program.now.types program.now.functions f.0 function.now)
        (λ e. IsFaultAt program.now.types program.now.functions e f.0 function.now) }
{
    if lacks_measure(program, f, function, called) {
        return Err(PlanFault::NoMeasure(f));
    }
    if !has_shape(alloc, program, f, function)? {
        return Err(PlanFault::MeasureShape(f));
    }
    if has_contract_cycle(alloc, program, f, function)? {
        return Err(PlanFault::ContractCycle(f));
    }
    Ok(())
}

/// Whether the function calls into its own group and has no measure.
fn lacks_measure(program: &Program, f: FunctionId, function: &Function, called: &[u32]) -> bool
    requires here { f.0 < length program.now.functions }
    requires calls { called.now ≡ function_calls function.now }
    ensures { IsTrue result ↔ LacksMeasure program.now.types program.now.functions f.0 function.now }
{
    if !function.measure.is_empty() {
        return false;
    }
    calls_into(program, f, called)
}

/// Whether the precondition or the measure list calls into the function's own group.
fn has_contract_cycle(
    alloc: Global,
    program: &Program,
    f: FunctionId,
    function: &Function,
) -> Result<bool, NoMemory>
    requires { f.0 < length program.now.functions }
    ensures { IfOk result (λ b. IsTrue b ↔ HasContractCycle program.now.types program.now.functions f.0 function.now) }
{
    let called = contract_calls(alloc, function)?;
    Ok(calls_into(program, f, called.as_slice()))
}

/// Whether one of these functions is of the group of f.
fn calls_into(program: &Program, f: FunctionId, called: &[u32]) -> bool
    requires { f.0 < length program.now.functions }
    ensures { IsTrue result ↔ CallsInto program.now.functions f.0 called.now }
{
    for g in called {
        if is_alike(program, f, FunctionId(*g)) {
            return true;
        }
    }
    false
}

/// Whether the two functions are of one group; what is no function is of none.
fn is_alike(program: &Program, f: FunctionId, g: FunctionId) -> bool
    requires { f.0 < length program.now.functions }
    ensures { IsTrue result ↔ OneGroup program.now.functions f.0 g.0 }
{
    g.0 < program.function_count() && program.group_of(f) == program.group_of(g)
}

/// Whether the measure of f is of the right form.
fn has_shape(
    alloc: Global,
    program: &Program,
    f: FunctionId,
    function: &Function,
) -> Result<bool, NoMemory>
    requires { slice_get program.now.functions f.0 ≡ Some function.now }
    ensures { IfOk result (λ b. IsTrue b ↔ HasShape program.now.types program.now.functions f.0 function.now) }
{
    let sorts = sorts_of(alloc, program, function)?;
    if sorts.is_empty() {
        return Ok(true);
    }
    let first = program.function(first_measured(program, f));
    let expected = sorts_of(alloc, program, first)?;
    Ok(is_shape(sorts.as_slice(), expected.as_slice()))
}

fn sorts_of(alloc: Global, program: &Program, f: &Function) -> Result<Sorts, NoMemory>
    ensures { IfOk result (λ sorts. sorts ≡ measure_sorts program.now.types program.now.functions f.now) }
{
    measure_sorts(alloc, program.types(), program.functions.as_slice(), f)
}

/// Whether these sorts may be those of a measure, where the first measure of the group has these.
fn is_shape(sorts: &[Sort], first: &[Sort]) -> bool
    ensures { IsTrue result ↔ ((sorts.now ≡ first.now) × (length sorts.now ≤ 4)
        × IsTrue (list_all is_component sorts.now)) }
{
    if !are_same(sorts, first) || sorts.len() > MOST_COMPONENTS {
        return false;
    }
    are_components(sorts)
}

fn are_same(sorts: &[Sort], others: &[Sort]) -> bool
    ensures { IsTrue result ↔ (sorts.now ≡ others.now) }
{
    if sorts.len() != others.len() {
        return false;
    }
    for i in 0..sorts.len() {
        if sorts[i] != others[i] {
            return false;
        }
    }
    true
}

/// Whether each sort is that of a number or a tree.
fn are_components(sorts: &[Sort]) -> bool
    ensures { result ≡ list_all is_component sorts.now }
{
    for s in sorts {
        if *s == Sort::Bool {
            return false;
        }
    }
    true
}

/// The first function of the group of f that has a measure, as f has.
fn first_measured(program: &Program, f: FunctionId) -> FunctionId
    requires here { f.0 < length program.now.functions }
    requires measured { IsTrue (valid.has_measure (slice_get program.now.functions f.0)) }
    ensures { IsFirstMeasured program.now.functions f.0 result.0 }
{
    for g in 0..f.0 {
        if is_measured(program, FunctionId(g)) && is_alike(program, f, FunctionId(g)) {
            return FunctionId(g);
        }
    }
    f
}

fn is_measured(program: &Program, g: FunctionId) -> bool
    requires { g.0 < length program.now.functions }
    ensures { result ≡ valid.has_measure (slice_get program.now.functions g.0) }
{
    !program.function(g).measure.is_empty()
}
