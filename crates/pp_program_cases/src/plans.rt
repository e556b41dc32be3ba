//! What a plan says of a program, which no mode of the product prints.
//!
//! The first line of the program is told, then a line on each function, and below it one on each of its measure
//! checks. That on a function has its rank, the functions of its cone, the least round in which its call tree is
//! nested, and for each depth the least round in which it is closed; a dash stands where no round up to 12 is one. A
//! measure check is plain where it is a plain descent.

ghost use Rattle.std.specs.Prelude.{◌<◌, length};

use pp_case_line::CaseLine;
use pp_checks::Plan;
use pp_front::Accepted;
use pp_prog::{Check, CheckKind, FunctionId, Program};

/// The greatest round that is tried.
const MOST_ROUND: u32 = 12;

/// Tells the program's first line, and the lines on all functions, each before those on its measure checks.
pub fn tell_plan(first: &str, accepted: &Accepted, out: &mut CaseLine) {
    let (program, plan) = (&accepted.program, &accepted.plan);
    out.put(format_args!("{first}\n"));
    for f in 0..program.function_count() {
        tell_function(program, plan, FunctionId(f), out);
        tell_checks(plan, FunctionId(f), out);
    }
}

/// Tells the line on a function.
fn tell_function(program: &Program, plan: &Plan, f: FunctionId, out: &mut CaseLine)
    requires { f.0 < length program.now.functions }
{
    let name = program.function(f).name.as_str();
    out.put(format_args!("{name}: rank {}; cone ", plan.rank(f)));
    tell_cone(program, plan, f, out);
    out.put("; nested from round ");
    tell_round(nested(plan, f), out);
    out.put("; closed at depths 0 to 3 from rounds");
    for depth in 0..4u32 {
        out.put(" ");
        tell_round(closed_at(plan, f, depth), out);
    }
    out.put("\n");
}

/// Tells the names of the functions in the cone of the function, in the order of the program.
fn tell_cone(program: &Program, plan: &Plan, f: FunctionId, out: &mut CaseLine) {
    let mut between = "";
    for g in 0..program.function_count() {
        if plan.in_cone(f, FunctionId(g)) {
            out.put(between);
            out.put(program.function(FunctionId(g)).name.as_str());
            between = ", ";
        }
    }
}

/// The least round in which the call tree of the function is nested.
fn nested(plan: &Plan, f: FunctionId) -> Option<u32> {
    (0..=MOST_ROUND).find(|round| plan.nested(f, *round))
}

/// The least round in which the function is closed at this depth.
fn closed_at(plan: &Plan, f: FunctionId, depth: u32) -> Option<u32> {
    (0..=MOST_ROUND).find(|round| plan.closed(f, *round, depth))
}

/// Tells the least round in which something holds of a function, if there is one.
fn tell_round(round: Option<u32>, out: &mut CaseLine) {
    match round {
        Some(round) => out.put(round),
        None => out.put("-"),
    }
}

/// Tells the lines on the measure checks of the function.
fn tell_checks(plan: &Plan, f: FunctionId, out: &mut CaseLine) {
    for check in plan.checks() {
        if check.function == f && check.kind == CheckKind::Measure {
            tell_check(plan, check, out);
        }
    }
}

/// Tells the line on a measure check.
fn tell_check(plan: &Plan, check: &Check, out: &mut CaseLine) {
    let (number, line, column) = (check.id.0, check.place.line, check.place.column);
    let descent = if plan.plain(check.id) {
        "plain"
    } else {
        "not plain"
    };
    out.put(format_args!("  measure check {number} at {line}:{column}: {descent}\n"));
}
