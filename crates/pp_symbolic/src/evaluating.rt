//! The evaluation.

ghost use Rattle.std.specs.Prelude.{◌≡◌, ◌<◌, ◌≤◌, IfOk, OnOk, length};
ghost use Rattle.pp_limits.specs.declared.TheConstants.{DEPTH, GATES, ROUNDS};
ghost use Rattle.pp_checks.specs.Plan.{IsPlanOf};
ghost use Rattle.pp_domain.specs.Answers.{IsNew};
ghost use Rattle.pp_domain.specs.Moves.{Moves};
ghost use Rattle.pp_estimate.specs.Estimates.{estimate};
ghost use Rattle.pp_symbolic.specs.Frame.{IsFrame, IsGuessFrame, Suits};
ghost use Rattle.pp_symbolic.specs.declared.frame.Mode.TheVariants.{Guess, Real};

use crate::NoMemory;
use crate::frame::{Frame, Mode};
use crate::guess::of_guess;
use crate::real::of_run;
use pp_checks::Plan;
use pp_domain::Domain;
use pp_gate::Circuit;
use pp_prog::{CheckId, Program};
use std::alloc::Global;

/// The circuit of a round of a check, over a new domain and a circuit without inputs and gates: in mode `Real` that
/// of the run of the check's function with the round as its fuel, on arguments up to the depth, over an exact domain;
/// in mode `Guess` that of its guess runs of the round, on arguments of any height, over a domain that isn't exact.
/// What the circuit gets, its constant included, is at most the estimate of the round. After want of memory, the only
/// error, the old gates stand and some new ones may be left. More than 2^32 - 1 steps are want of memory too.
pub fn symbolic<D: Domain>(
    alloc: Global,
    domain: &mut D,
    circuit: &mut Circuit,
    program: &Program,
    plan: &Plan,
    check: CheckId,
    mode: Mode,
    round: u32,
    depth: u32,
) -> Result<Frame<D::Tree>, NoMemory>
    requires mode { Suits D.sense mode }
    requires fresh { IsNew D.sense program.now.types domain.old circuit.old }
    requires empty { length circuit.old ≡ 1 }
    requires plan { IsPlanOf plan.now program.now }
    requires check { check.0 < length program.now.checks }
    requires round { round ≤ ROUNDS.most }
    requires depth { (1 ≤ depth) × (depth ≤ DEPTH.most) }
    requires size { estimate program.now.types program.now.functions program.now.checks check.0 round depth
        ≤ GATES.most }
    ensures moves { Moves D.sense program.now.types domain.old circuit.old domain.new circuit.new
        (estimate program.now.types program.now.functions program.now.checks check.0 round depth) }
    ensures size { OnOk result (length circuit.new ≤
        estimate program.now.types program.now.functions program.now.checks check.0 round depth) }
    ensures run { IfOk result (λ r. mode ≡ Real
        → IsFrame D.sense program.now check round depth domain.new circuit.new r) }
    ensures guess { IfOk result (λ r. mode ≡ Guess
        → IsGuessFrame D.sense program.now check round domain.new circuit.new r) }
{
    match mode {
        Mode::Real => of_run(alloc, domain, circuit, program, plan, check, round, depth),
        Mode::Guess => of_guess(alloc, domain, circuit, program, plan, check, round, depth),
    }
}
