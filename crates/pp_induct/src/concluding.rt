//! The table of verdicts.

ghost use Rattle.std.specs.Prelude.{◌≡◌, ◌↔◌, ◌<◌, ◌≤◌, ◌^◌, ℕ, IfOk, IsTrue, MatchOption, length};
ghost use Rattle.pp_limits.specs.declared.TheConstants.{DEPTH, ROUNDS};
ghost use Rattle.pp_checks.specs.Plan.{IsPlanOf};
ghost use Rattle.pp_induct.specs.Supported.{AreSupported};
ghost use Rattle.pp_induct.specs.Concluding.{EndedBy, IsMarkedIn, IsOf, MarkUndone};
ghost use Rattle.pp_induct.specs.Verdicts.{AreVerdicts, HasUndone, IsFirst, IsInvalidEnd, IsOpenEnd, IsVerdict, Never};
ghost use Rattle.pp_induct.specs.Verdicts.{ValidAreGood};

use crate::{CheckEnd, NoMemory, Verdict, Verdicts};
use pp_checks::Plan;
use pp_list::{Items, at};
use pp_prog::{Check, CheckId, FunctionId, Program};
use std::alloc::Global;

/// How a check can end that isn't settled.
#[derive(Clone, Copy)]
pub(crate) enum Unsettled {
    Invalid,
    Open,
}

/// The verdict on each function, by the first row that applies: a check of it ended `Invalid`, and the first such is
/// named; one ended `Open`, and the first such is named; a function of its cone has a check that is neither proved nor
/// exhausted, and the first such function in program order is named; it is valid. Behind each end that is proved or
/// exhausted stands what it says, up to round 12 and at one depth from 1 to 6. A function that is valid, and each
/// function of its cone, is then good. The only error is want of memory.
pub fn conclude(
    alloc: Global,
    program: &Program,
    plan: &Plan,
    ends: &[CheckEnd],
) -> Result<Verdicts, NoMemory>
    requires plan { IsPlanOf plan.now program.now }
    requires ends { length ends.now ≡ length program.now.checks }
    requires supported { (depth : ℕ) × (1 ≤ depth) × (depth ≤ DEPTH.most)
        × AreSupported program.now ROUNDS.most depth ends.now }
    ensures table { IfOk result (λ verdicts. AreVerdicts program.now ends.now verdicts) }
    ensures valid { IfOk result (λ verdicts. ValidAreGood program.now verdicts) }
{
    let undone = undone_functions(alloc, program, ends)?;
    let mut verdicts = Items::new(alloc);
    for f in 0..program.function_count() {
        verdicts.push(verdict_of(program, plan, ends, undone.as_slice(), FunctionId(f)))?;
    }
    Ok(verdicts)
}

/// The verdict on f, where these functions have checks that aren't settled.
fn verdict_of(
    program: &Program,
    plan: &Plan,
    ends: &[CheckEnd],
    undone: &[bool],
    f: FunctionId,
) -> Verdict
    requires plan { IsPlanOf plan.now program.now }
    requires undone { MarkUndone program.now ends.now undone.now (length program.now.functions) }
    requires function { f.0 < length program.now.functions }
    ensures { IsVerdict program.now ends.now f.0 result }
{
    if let Some(c) = first_check(program.checks(), ends, f, Unsettled::Invalid) {
        return Verdict::Invalid(c);
    }
    if let Some(c) = first_check(program.checks(), ends, f, Unsettled::Open) {
        return Verdict::Open(c);
    }
    match first_undone(program, plan, undone, f) {
        Some(g) => Verdict::Depends(g),
        None => Verdict::Valid,
    }
}

/// A mark for each function that has a check which isn't settled.
fn undone_functions(
    alloc: Global,
    program: &Program,
    ends: &[CheckEnd],
) -> Result<Items<bool>, NoMemory>
    ensures { IfOk result (λ marks. MarkUndone program.now ends.now marks (length program.now.functions)) }
{
    let mut marks = Items::new(alloc);
    for f in 0..program.function_count() {
        marks.push(is_undone(program.checks(), ends, FunctionId(f)))?;
    }
    Ok(marks)
}

/// Whether f has a check which isn't settled.
fn is_undone(checks: &[Check], ends: &[CheckEnd], f: FunctionId) -> bool
    requires few { length checks.now < 2 ^ 32 }
    ensures { IsTrue result ↔ HasUndone checks.now ends.now f.0 }
{
    first_check(checks, ends, f, Unsettled::Invalid).is_some()
        || first_check(checks, ends, f, Unsettled::Open).is_some()
}

/// The first check of f that ended so.
fn first_check(
    checks: &[Check],
    ends: &[CheckEnd],
    f: FunctionId,
    way: Unsettled,
) -> Option<CheckId>
    requires few { length checks.now < 2 ^ 32 }
    ensures { MatchOption result (Never (EndedBy checks.now ends.now way f.0))
        (λ c. IsFirst (EndedBy checks.now ends.now way f.0) c.0) }
{
    for c in 0..checks.len() {
        if has_ended(checks, ends, f, way, c) {
            return Some(CheckId(c as u32));
        }
    }
    None
}

/// Whether check number c is one of f that ended so.
fn has_ended(checks: &[Check], ends: &[CheckEnd], f: FunctionId, way: Unsettled, c: usize) -> bool
    ensures { IsTrue result ↔ EndedBy checks.now ends.now way f.0 c }
{
    match at(checks, c) {
        None => false,
        Some(check) => match at(ends, c) {
            None => false,
            Some(end) => check.function.0 == f.0 && ends_so(end, way),
        },
    }
}

/// Whether this is how the check ended.
fn ends_so(end: &CheckEnd, way: Unsettled) -> bool
    ensures { IsTrue result ↔ IsOf way end.now }
{
    match way {
        Unsettled::Invalid => is_invalid_end(end),
        Unsettled::Open => is_open_end(end),
    }
}

fn is_invalid_end(end: &CheckEnd) -> bool
    ensures { IsTrue result ↔ IsInvalidEnd end.now }
{
    match end {
        CheckEnd::Invalid(_, _) => true,
        _ => false,
    }
}

fn is_open_end(end: &CheckEnd) -> bool
    ensures { IsTrue result ↔ IsOpenEnd end.now }
{
    match end {
        CheckEnd::Open { .. } => true,
        _ => false,
    }
}

/// The first function of the cone of f that is marked.
fn first_undone(
    program: &Program,
    plan: &Plan,
    undone: &[bool],
    f: FunctionId,
) -> Option<FunctionId>
    requires plan { IsPlanOf plan.now program.now }
    requires marks { length undone.now ≡ length program.now.functions }
    requires function { f.0 < length program.now.functions }
    ensures { MatchOption result (Never (IsMarkedIn program.now undone.now f.0))
        (λ g. IsFirst (IsMarkedIn program.now undone.now f.0) g.0) }
{
    for g in 0..program.function_count() {
        if undone[g as usize] && plan.in_cone(f, FunctionId(g)) {
            return Some(FunctionId(g));
        }
    }
    None
}
