//! The question of a round: whether the check fails in its circuit, where all that was supposed holds.

ghost use Rattle.std.specs.Prelude.{◌<◌, ◌≤◌, IfOk, length};
ghost use Rattle.pp_limits.specs.declared.TheConstants.{DEPTH, GATES, ROUNDS};
ghost use Rattle.pp_checks.specs.Plan.{IsPlanOf};
ghost use Rattle.pp_estimate.specs.Estimates.{estimate};
ghost use Rattle.pp_query.specs.Question.{IsQuestion};
ghost use Rattle.pp_symbolic.specs.Frame.{Suits};

use crate::NoMemory;
use pp_checks::Plan;
use pp_domain::Domain;
use pp_gate::Circuit;
use pp_prog::{CheckId, Program};
use pp_symbolic::{Frame, Mode, symbolic};
use std::alloc::Global;

/// The circuit of a round and its domain, with the frame: the symbols of the arguments, the literal that the check
/// fails, and the literal that all that was supposed of the inputs holds.
#[derive(Drop)]
pub struct Question<D, T> {
    /// The circuit of the round: at most as many gates and inputs as the round is estimated at.
    pub circuit: Circuit,
    /// The domain of its trees.
    pub domain: D,
    /// The literals that are asked, and the symbols of the arguments.
    pub frame: Frame<T>,
}

/// The question of a round: of its run on arguments of height at most `depth`, over an exact domain, or of its guess
/// runs, over another. The only error is want of memory.
pub fn question_of<D: Domain + Drop>(
    alloc: Global,
    program: &Program,
    plan: &Plan,
    check: CheckId,
    mode: Mode,
    round: u32,
    depth: u32,
) -> Result<Question<D, D::Tree>, NoMemory>
    requires mode { Suits D.sense mode }
    requires plan { IsPlanOf plan.now program.now }
    requires check { check.0 < length program.now.checks }
    requires round { round ≤ ROUNDS.most }
    requires depth { (1 ≤ depth) × (depth ≤ DEPTH.most) }
    requires size { estimate program.now.types program.now.functions program.now.checks check.0 round depth
        ≤ GATES.most }
    ensures question { IfOk result (λ q. IsQuestion D.sense program.now check mode round depth q) }
{
    let mut circuit = Circuit::new(alloc)?;
    let mut domain = D::fresh(&mut circuit)?;
    let frame = symbolic(
        alloc,
        &mut domain,
        &mut circuit,
        program,
        plan,
        check,
        mode,
        round,
        depth,
    )?;
    Ok(Question {
        circuit,
        domain,
        frame,
    })
}
