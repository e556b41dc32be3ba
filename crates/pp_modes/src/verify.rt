//! Mode `verify`.

ghost use Rattle.std.specs.Prelude.{◌≡◌, IfOk, length, map, slice_get, string_bytes};
ghost use Rattle.pp_checks.specs.Plan.{IsPlanOf};
ghost use Rattle.pp_induct.specs.Reports.{AreLimits, IsReport};
ghost use Rattle.pp_induct.specs.Verdicts.{ValidAreGood};
ghost use Rattle.pp_modes.specs.Responses.{response_of};
ghost use Rattle.pp_modes.specs.Verdicts as spec;

use crate::counts::{status_by, summary};
use crate::list::own_checks;
use crate::{NoMemory, Response};
use pp_checks::Plan;
use pp_induct::{CheckEnd, Limits, Report, Verdict, Why};
use pp_list::at;
use pp_print::{Reason, depends_line, invalid_line, open_line, valid_line};
use pp_prog::{Check, CheckId, Function, FunctionId, Program};
use pp_turns::{Direction, verify_in_turns};
use pp_verify::verify;
use pp_words::Order;
use std::alloc::Global;

fn reason_of(why: &Why) -> Reason
    ensures { result ≡ spec.reason_of why.now }
{
    match why {
        Why::Rounds => Reason::Rounds,
        Why::Lemmas(_) => Reason::Lemmas,
        Why::Size => Reason::Size,
    }
}

/// The line of a function on a check of it, by how that ended: arguments fail it, or it is open.
fn ended_line(
    alloc: Global,
    program: &Program,
    f: &Function,
    check: &Check,
    end: &CheckEnd,
) -> Result<String, NoMemory>
    ensures { IfOk result (λ line. string_bytes line ≡ spec.ended_text program.now f.now check.now end.now) }
{
    let name = f.name.as_str();
    match end {
        // only checks that are invalid or open are named
        CheckEnd::Proved(_) | CheckEnd::Exhausted(_) => Ok(String::new(alloc)),
        CheckEnd::Invalid(args, _) => invalid_line(
            alloc,
            program.types().ctors.as_slice(),
            name,
            check.kind,
            check.place,
            f.params.as_slice(),
            args.as_slice(),
        ),
        CheckEnd::Open { searched, why } => open_line(
            alloc,
            name,
            *searched,
            check.kind,
            check.place,
            reason_of(why),
        ),
    }
}

/// The line of a function on the check of it with this number.
fn check_line(
    alloc: Global,
    program: &Program,
    ends: &[CheckEnd],
    f: &Function,
    check: CheckId,
) -> Result<String, NoMemory>
    ensures { IfOk result (λ line. string_bytes line
        ≡ spec.check_text program.now f.now (slice_get program.now.checks check.0) (slice_get ends.now check.0)) }
{
    let c = check.0 as usize;
    // a verdict names a check of the program, and each check has an end
    let Some(check) = at(program.checks(), c) else {
        return Ok(String::new(alloc));
    };
    match at(ends, c) {
        None => Ok(String::new(alloc)),
        Some(end) => ended_line(alloc, program, f, check, end),
    }
}

/// The line of a function with so many checks that depends on the function with this number.
fn depending_line(
    alloc: Global,
    program: &Program,
    f: &Function,
    checks: u32,
    on: FunctionId,
) -> Result<String, NoMemory>
    ensures { IfOk result (λ line. string_bytes line
        ≡ spec.depending_text f.now checks (slice_get program.now.functions on.0)) }
{
    match at(program.functions.as_slice(), on.0 as usize) {
        // a verdict names a function of the program
        None => Ok(String::new(alloc)),
        Some(g) => depends_line(alloc, f.name.as_str(), g.name.as_str(), checks),
    }
}

/// The line on the verdict of the function with this number.
fn verdict_line(
    alloc: Global,
    program: &Program,
    ends: &[CheckEnd],
    i: u32,
    f: &Function,
    verdict: &Verdict,
) -> Result<String, NoMemory>
    ensures { IfOk result (λ line. string_bytes line
        ≡ spec.verdict_text program.now ends.now i f.now verdict.now) }
{
    match verdict {
        Verdict::Valid => valid_line(alloc, f.name.as_str(), own_checks(program, i)),
        Verdict::Depends(g) => depending_line(alloc, program, f, own_checks(program, i), *g),
        Verdict::Invalid(check) => check_line(alloc, program, ends, f, *check),
        Verdict::Open(check) => check_line(alloc, program, ends, f, *check),
    }
}

/// The lines on the verdicts, one for each function.
fn verdict_lines(
    alloc: Global,
    program: &Program,
    ends: &[CheckEnd],
    verdicts: &[Verdict],
) -> Result<Vec<String>, NoMemory>
    requires { length verdicts.now ≡ length program.now.functions }
    ensures { IfOk result (λ lines. map string_bytes lines.items
        ≡ spec.verdict_lines program.now ends.now 0 program.now.functions verdicts.now) }
{
    let functions = program.functions.as_slice();
    let mut lines = Vec::new(alloc);
    for i in 0..verdicts.len() {
        let line = verdict_line(alloc, program, ends, i as u32, &functions[i], &verdicts[i])?;
        lines.push(line)?;
    }
    Ok(lines)
}

fn verdict_report(alloc: Global, program: &Program, report: &Report) -> Result<Response, NoMemory>
    requires { length report.now.verdicts ≡ length program.now.functions }
    ensures { IfOk result (λ r. response_of r ≡ spec.verdict_report program.now report.now) }
{
    let verdicts = report.verdicts.as_slice();
    let mut lines = verdict_lines(alloc, program, report.checks.as_slice(), verdicts)?;
    lines.push(summary(alloc, verdicts)?)?;
    Ok(Response::Report(status_by(verdicts), lines))
}

/// The report on the program within these limits, whose checks are worked on in this order.
fn report_of(
    alloc: Global,
    program: &Program,
    plan: &Plan,
    order: Order,
    limits: Limits,
) -> Result<Report, NoMemory>
    requires plan { IsPlanOf plan.now program.now }
    requires limits { AreLimits limits }
    ensures report { IfOk result (λ report. IsReport program.now limits report) }
    ensures valid { IfOk result (λ report. ValidAreGood program.now report.verdicts) }
{
    match order {
        Order::One => verify(alloc, program, plan, limits),
        Order::Turns => verify_in_turns(alloc, program, plan, limits, Direction::Forward),
        Order::Back => verify_in_turns(alloc, program, plan, limits, Direction::Backward),
    }
}

/// What is answered to mode `verify` within these limits, whatever the order is.
pub(crate) fn answer_verify(
    alloc: Global,
    program: &Program,
    plan: &Plan,
    order: Order,
    limits: Limits,
) -> Result<Response, NoMemory>
    requires plan { IsPlanOf plan.now program.now }
    requires limits { AreLimits limits }
    ensures { IfOk result (λ r. spec.AnswersVerify program.now limits (response_of r)) }
{
    let report = report_of(alloc, program, plan, order, limits)?;
    verdict_report(alloc, program, &report)
}
