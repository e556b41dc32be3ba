//! Mode `make`.

ghost use Rattle.std.specs.Prelude.{◌≡◌, IfOk, length};
ghost use Rattle.pp_checks.specs.Plan.{IsPlanOf};
ghost use Rattle.pp_induct.specs.Reports.{AreLimits};
ghost use Rattle.pp_modes.specs.Responses.{response_of};
ghost use Rattle.pp_modes.specs.Verdicts as spec;

use crate::counts::{status_by, summary};
use crate::{NoMemory, Response};
use pp_checks::Plan;
use pp_induct::{Limits, Report};
use pp_print::made_line;
use pp_prog::Program;
use pp_verify::verify;
use std::alloc::Global;

fn made_report(alloc: Global, program: &Program, report: &Report) -> Result<Response, NoMemory>
    requires { length report.now.verdicts ≡ length program.now.functions }
    ensures { IfOk result (λ r. response_of r ≡ spec.made_report program.now report.now) }
{
    let verdicts = report.verdicts.as_slice();
    let mut lines = Vec::new(alloc);
    lines.push(made_line(alloc, program.function_count())?)?;
    lines.push(summary(alloc, verdicts)?)?;
    Ok(Response::Report(status_by(verdicts), lines))
}

/// What is answered to mode `make` within these limits, on the program of the source that was made.
pub(crate) fn answer_make(
    alloc: Global,
    program: &Program,
    plan: &Plan,
    limits: Limits,
) -> Result<Response, NoMemory>
    requires plan { IsPlanOf plan.now program.now }
    requires limits { AreLimits limits }
    ensures { IfOk result (λ r. spec.AnswersMake program.now limits (response_of r)) }
{
    let report = verify(alloc, program, plan, limits)?;
    made_report(alloc, program, &report)
}
