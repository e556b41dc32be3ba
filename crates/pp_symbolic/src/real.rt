//! The circuit of a run.

ghost use Rattle.std.specs.Prelude.{◌≡◌, ◌<◌, ◌≤◌, ℕ, true, IfOk, OnOk, length};
ghost use Rattle.pp_limits.specs.declared.TheConstants.{DEPTH, GATES, ROUNDS};
ghost use Rattle.pp_checks.specs.Plan.{IsPlanOf};
ghost use Rattle.pp_domain.specs.Answers.{Fresh};
ghost use Rattle.pp_domain.specs.Moves.{Moves};
ghost use Rattle.pp_estimate.specs.Estimates.{estimate};
ghost use Rattle.pp_symbolic.specs.Frame.{IsFrame};

use crate::NoMemory;
use crate::frame::Frame;
use crate::ownership::owner;
use crate::steps::evaluate;
use pp_checks::Plan;
use pp_compile::compile_run;
use pp_domain::Domain;
use pp_gate::Circuit;
use pp_prog::{CheckId, Program};
use pp_simplify::simplify;
use std::alloc::Global;

/// The run of the check's function with the round as its fuel, on arguments up to the depth, over an exact domain. What
/// is known before the run, operators on known numbers and truth values among it, and what the literal doesn't stand
/// on, isn't built. After want of memory the old gates stand and some new ones may be left.
pub(crate) fn of_run<D: Domain>(
    alloc: Global,
    domain: &mut D,
    circuit: &mut Circuit,
    program: &Program,
    plan: &Plan,
    check: CheckId,
    round: u32,
    depth: u32,
) -> Result<Frame<D::Tree>, NoMemory>
    requires exact { D.sense.exact ≡ true }
    requires fresh { Fresh D.sense program.now.types domain.old circuit.old }
    requires empty { length circuit.old ≡ 1 }
    requires plan { IsPlanOf plan.now program.now }
    requires check { check.0 < length program.now.checks }
    requires round { round ≤ ROUNDS.most }
    requires depth { (1 ≤ depth) × (depth ≤ DEPTH.most) }
    requires size { estimate program.now.types program.now.functions program.now.checks check.0 round depth
        ≤ GATES.most }
    ensures moves { Moves D.sense program.now.types domain.old circuit.old domain.new circuit.new
        (estimate program.now.types program.now.functions program.now.checks check.0 round depth) }
    ensures size { OnOk result (length circuit.new ≤
        estimate program.now.types program.now.functions program.now.checks check.0 round depth) }
    ensures frame { IfOk result (λ r. IsFrame D.sense program.now check round depth domain.new circuit.new r) }
{
    let f = owner(program, check);
    let mut run = compile_run(alloc, program.functions.as_slice(), f, check, round)?;
    if run.steps.len() > u32::MAX as usize {
        return Err(NoMemory);
    }
    let fails = simplify(alloc, &mut run.steps, f.params.len(), run.fails)?;
    evaluate(
        alloc,
        domain,
        circuit,
        program.types(),
        f.params.as_slice(),
        depth,
        run.steps.as_slice(),
        fails,
    )
}
