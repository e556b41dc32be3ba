//! The circuit of guess runs.

ghost use Rattle.std.specs.Prelude.{◌≡◌, ◌<◌, ◌≤◌, false, IfOk, OnOk, length};
ghost use Rattle.pp_limits.specs.declared.TheConstants.{DEPTH, GATES, ROUNDS};
ghost use Rattle.pp_checks.specs.Plan.{IsPlanOf};
ghost use Rattle.pp_domain.specs.Answers.{IsNew};
ghost use Rattle.pp_domain.specs.Moves.{Moves};
ghost use Rattle.pp_estimate.specs.Estimates.{estimate};
ghost use Rattle.pp_symbolic.specs.Frame.{IsGuessFrame};

use crate::NoMemory;
use crate::frame::Frame;
use crate::guessed::evaluate_guess;
use crate::naming::values_to_name;
use crate::ownership::owner;
use pp_checks::Plan;
use pp_compile::compile_guess;
use pp_domain::Domain;
use pp_gate::Circuit;
use pp_prog::{CheckId, Program};
use std::alloc::Global;

/// The guess runs of the check's function of the round, over a domain that isn't exact, which is told how many values
/// have to be named for them. After want of memory the old gates stand and some new ones may be left.
pub(crate) fn of_guess<D: Domain>(
    alloc: Global,
    domain: &mut D,
    circuit: &mut Circuit,
    program: &Program,
    plan: &Plan,
    check: CheckId,
    round: u32,
    depth: u32,
) -> Result<Frame<D::Tree>, NoMemory>
    requires inexact { D.sense.exact ≡ false }
    requires fresh { IsNew D.sense program.now.types domain.old circuit.old }
    requires empty { length circuit.old ≡ 1 }
    requires plan { IsPlanOf plan.now program.now }
    requires check { check.0 < length program.now.checks }
    requires round { round ≤ ROUNDS.most }
    requires depth { (1 ≤ depth) × (depth ≤ DEPTH.most) }
    requires size { estimate program.now.types program.now.functions program.now.checks check.0 round depth
        ≤ GATES.most }
    ensures moves { Moves D.sense program.now.types domain.old circuit.old domain.new circuit.new
        (estimate program.now.types program.now.functions program.now.checks check.0 round depth) }
    ensures size { OnOk result (length circuit.new ≤
        estimate program.now.types program.now.functions program.now.checks check.0 round depth) }
    ensures guess { IfOk result (λ r. IsGuessFrame D.sense program.now check round domain.new circuit.new r) }
{
    let f = owner(program, check);
    let guess = compile_guess(alloc, program.functions.as_slice(), f, check, round)?;
    domain.limit_to(values_to_name(program.types(), guess.steps.as_slice()));
    evaluate_guess(
        alloc,
        domain,
        circuit,
        program.types(),
        f.params.as_slice(),
        &guess,
    )
}
