//! How large the circuits of runs are, and how fast they are built. `SOURCE ROUND DEPTH TIMES` names a source; the
//! circuit of each check's round is built so many times. For each check it tells the steps of the run, the gates of
//! the circuit, and the estimate. Where that is above 4,000,000, or nothing is to be built, no gates are told.

ghost use Rattle.std.specs.Prelude.{◌<◌, ◌≤◌, length};
ghost use Rattle.pp_checks.specs.Plan.{IsPlanOf};
ghost use Rattle.pp_estimate.specs.Estimates as spec;

use crate::steps::steps_of;
use anyhow::Result;
use pp_bounded::Bounded;
use pp_bounded_samples::words::number;
use pp_case_line::CaseLine;
use pp_estimate::estimate;
use pp_front::Accepted;
use pp_limits::GATES;
use pp_prog::CheckId;
use pp_query::question_of;
use pp_symbolic::{Mode, NoMemory};
use std::alloc::Global;

/// Tells the sizes of the circuit of each check.
pub fn tell_sizes(alloc: Global, words: &str, accepted: &Accepted, out: &mut CaseLine) -> Result<()>
    requires { IsPlanOf accepted.now.plan accepted.now.program }
{
    let round = number(words, 2, 0, 12)?;
    let depth = number(words, 3, 1, 6)?;
    let times = number(words, 4, 0, 1000)?;
    for check in 0..accepted.program.checks().len() {
        tell_size(
            alloc,
            accepted,
            CheckId(check as u32),
            round,
            depth,
            times,
            out,
        )?;
    }
    Ok(())
}

/// Tells the sizes of the circuit of a check, which is built so many times.
fn tell_size(
    alloc: Global,
    accepted: &Accepted,
    check: CheckId,
    round: u32,
    depth: u32,
    times: u32,
    out: &mut CaseLine,
) -> Result<(), NoMemory>
    requires plan { IsPlanOf accepted.now.plan accepted.now.program }
    requires check { check.0 < length accepted.now.program.checks }
    requires round { round ≤ 12 }
    requires depth { (1 ≤ depth) × (depth ≤ 6) }
{
    let most = estimate(
        alloc,
        &accepted.program,
        &accepted.plan,
        check,
        round,
        depth,
    )?;
    let steps = steps_of(alloc, &accepted.program, check, Mode::Real, round)?;
    out.put(format_args!("check {}: {steps} steps, ", check.0));
    if times == 0 || most > u64::from(GATES.most) {
        out.put(format_args!("at most {most} gates\n"));
        return Ok(());
    }
    let gates = gates_of(alloc, accepted, check, round, depth, times)?;
    out.put(format_args!("{gates} gates of {most}\n"));
    Ok(())
}

/// How many gates the circuit of a round has, which is built so many times.
fn gates_of(
    alloc: Global,
    accepted: &Accepted,
    check: CheckId,
    round: u32,
    depth: u32,
    times: u32,
) -> Result<u32, NoMemory>
    requires plan { IsPlanOf accepted.now.plan accepted.now.program }
    requires check { check.0 < length accepted.now.program.checks }
    requires round { round ≤ 12 }
    requires depth { (1 ≤ depth) × (depth ≤ 6) }
    requires size { let p = accepted.now.program in
        spec.estimate p.types p.functions p.checks check.0 round depth ≤ 4000000 }
{
    let (program, plan) = (&accepted.program, &accepted.plan);
    let mut gates = 0;
    for _ in 0..times {
        gates = question_of::<Bounded>(alloc, program, plan, check, Mode::Real, round, depth)?
            .circuit
            .gates();
    }
    Ok(gates)
}
