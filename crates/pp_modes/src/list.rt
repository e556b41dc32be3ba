//! Mode `list`.

ghost use Rattle.std.specs.Prelude.{◌≡◌, ◌<◌, ◌≤◌, ◌++◌, ℕ, IfOk, IfSome, None, OnOk, Some, length, map, slice_get};
ghost use Rattle.std.specs.Prelude.{string_bytes};
ghost use Rattle.pp_limits.specs.declared.TheConstants.{DEPTH, ROUNDS};
ghost use Rattle.pp_checks.specs.Plan.{IsPlanOf};
ghost use Rattle.pp_estimate.specs.Shared.{AreOf};
ghost use Rattle.pp_modes.specs.Lists as spec;
ghost use Rattle.pp_prog.specs.declared.expr.Function.{Function};
ghost use Rattle.pp_sound.specs.Sound.{IsCheckOf};

use crate::NoMemory;
use pp_checks::Plan;
use pp_estimate::Estimates;
use pp_print::{count_line, estimate_line};
use pp_prog::{Check, CheckId, FunctionId, Program};
use std::alloc::Global;

/// How many checks the function with this number has. It takes no memory.
pub(crate) fn own_checks(program: &Program, f: u32) -> u32
    ensures { result ≡ spec.own_checks f program.now.checks }
{
    let checks = program.checks();
    checks.iter().filter(|check| check.function.0 == f).count() as u32
}

/// The first check of the function with this number; none where it has none.
fn first_check(program: &Program, f: u32) -> Option<CheckId>
    ensures of { IfSome result (λ c. IsCheckOf program.now f c.0) }
    ensures none { result ≡ None → (c : ℕ) → IsCheckOf program.now f c → ⊥ }
{
    let checks = program.checks();
    for i in 0..checks.len() {
        if checks[i].function.0 == f {
            return Some(CheckId(i as u32));
        }
    }
    None
}

/// Which estimates are asked for: those of this round, on arguments up to this depth.
#[derive(Clone, Copy)]
struct Asked {
    round: u32,
    depth: u32,
}

/// The estimate for the checks of the function with this number, which share it; 0 where it has none. No frame is
/// counted again that is known.
fn shared_estimate(
    alloc: Global,
    program: &Program,
    plan: &Plan,
    f: u32,
    asked: Asked,
    estimates: &mut Estimates,
) -> Result<u64, NoMemory>
    requires plan { IsPlanOf plan.now program.now }
    requires round { asked.round ≤ ROUNDS.most }
    requires depth { (1 ≤ asked.depth) × (asked.depth ≤ DEPTH.most) }
    requires estimates { AreOf program.now estimates.old }
    ensures shared { IfOk result (λ e. spec.IsSharedEstimate program.now asked.round asked.depth f e) }
    ensures estimates { OnOk result (AreOf program.now estimates.new) }
{
    match first_check(program, f) {
        Some(check) => estimates.of(alloc, program, plan, check, asked.round, asked.depth),
        None => Ok(0),
    }
}

/// Adds the line of a check with this estimate, where it is one of the function with this number.
fn add_check(
    alloc: Global,
    check: &Check,
    f: u32,
    estimate: u64,
    lines: &mut Vec<String>,
) -> Result<(), NoMemory>
    ensures { IfOk result (λ _. map string_bytes lines.new.items
        ≡ map string_bytes lines.old.items ++ spec.line_if f estimate check.now) }
{
    if check.function.0 == f {
        lines.push(estimate_line(alloc, check.kind, check.place, estimate)?)?;
    }
    Ok(())
}

/// Adds the line of each check of the function with this number.
fn add_checks(
    alloc: Global,
    checks: &[Check],
    f: u32,
    estimate: u64,
    lines: &mut Vec<String>,
) -> Result<(), NoMemory>
    ensures { IfOk result (λ _. map string_bytes lines.new.items
        ≡ map string_bytes lines.old.items ++ spec.lines_with f estimate checks.now) }
{
    for i in 0..checks.len() {
        let check = &checks[i];
        add_check(alloc, check, f, estimate, lines)?;
    }
    Ok(())
}

/// Adds the lines of the function with this number, whose checks share the estimate: its name with the number of its
/// checks, and then these.
fn add_function(
    alloc: Global,
    program: &Program,
    f: u32,
    estimate: u64,
    lines: &mut Vec<String>,
) -> Result<(), NoMemory>
    requires function { f < length program.now.functions }
    ensures { IfOk result (λ _. (function : Function) → slice_get program.now.functions f ≡ Some function
        → (round depth : ℕ) → spec.IsSharedEstimate program.now round depth f estimate
        → map string_bytes lines.new.items
        ≡ map string_bytes lines.old.items ++ spec.function_lines program.now round depth f function) }
{
    let name = program.function(FunctionId(f)).name.as_str();
    lines.push(count_line(alloc, name, own_checks(program, f))?)?;
    add_checks(alloc, program.checks(), f, estimate, lines)
}

/// The lines of the list: for each function its name with the number of its checks, and then each check.
pub(crate) fn list_lines(
    alloc: Global,
    program: &Program,
    plan: &Plan,
    round: u32,
    depth: u32,
) -> Result<Vec<String>, NoMemory>
    requires plan { IsPlanOf plan.now program.now }
    requires round { round ≤ ROUNDS.most }
    requires depth { (1 ≤ depth) × (depth ≤ DEPTH.most) }
    ensures { IfOk result (λ lines. map string_bytes lines.items ≡ spec.list_lines program.now round depth) }
{
    let asked = Asked { round, depth };
    let mut estimates = Estimates::new(alloc)?;
    let mut lines = Vec::new(alloc);
    for f in 0..program.function_count() {
        let estimate = shared_estimate(alloc, program, plan, f, asked, &mut estimates)?;
        add_function(alloc, program, f, estimate, &mut lines)?;
    }
    Ok(lines)
}
