//! The report, once all checks have ended: what is left open is proved together where that can be done.

ghost use Rattle.std.specs.Prelude.{◌≡◌, ◌++◌, ℕ, IfOk, OnOk, reverse, slice_get};
ghost use Rattle.std.specs.List.{flat_map};
ghost use Rattle.pp_checks.specs.Plan.{IsPlanOf};
ghost use Rattle.pp_induct.specs.Reports.{IsReport};
ghost use Rattle.pp_induct.specs.Verdicts.{ValidAreGood};
ghost use Rattle.pp_turns.specs.Parts.{HaveEnded, end_of, ends_in};
ghost use Rattle.pp_turns.specs.Turns.{AreTurns};
ghost use Rattle.pp_verify.specs.Cones.{IsKeptOrProved};

use crate::NoMemory;
use crate::part::Turn;
use crate::turns::Turns;
use pp_checks::Plan;
use pp_induct::{Ends, Report, conclude};
use pp_list::Items;
use pp_prog::Program;
use pp_verify::prove_cones;
use std::alloc::Global;

impl Turns {
    /// The report of the checks, each of which has ended: their ends, but that some which are open for the size of
    /// their rounds are proved together in the last round (`pp_verify`); and the verdict on each function. A function
    /// that is valid is good: every call that meets the precondition evaluates, with some fuel, to a value that meets
    /// the postcondition. The only error is want of memory, and then all is given up.
    pub fn finish(self, alloc: Global, program: &Program, plan: &Plan) -> Result<Report, NoMemory>
        requires plan { IsPlanOf plan.now program.now }
        requires turns { AreTurns program.now self }
        requires ended { HaveEnded self.checks }
        ensures report { IfOk result (λ report. IsReport program.now self.limits report) }
        ensures valid { IfOk result (λ report. ValidAreGood program.now report.verdicts) }
        ensures ends { IfOk result (λ report. (c : ℕ) → IsKeptOrProved self.limits (end_of self.checks c)
            (slice_get report.checks c)) }
    {
        let Turns {
            checks: turns,
            limits,
            ..
        } = self;
        let ends = ends_of(alloc, turns)?;
        let checks = prove_cones(alloc, program, plan, limits, ends)?;
        let verdicts = conclude(alloc, program, plan, checks.as_slice())?;
        Ok(Report { checks, verdicts })
    }
}

/// The ends of the checks that have ended, in order.
fn ends_of(alloc: Global, turns: Items<Turn>) -> Result<Ends, NoMemory>
    ensures { IfOk result (λ ends. ends ≡ flat_map ends_in turns) }
{
    let mut rest = turns;
    let mut back = Items::new(alloc);
    while let Some(turn) = rest.pop() {
        push_end(&mut back, turn)?;
    }
    reversed(alloc, back)
}

/// Adds the end of the check, if it has one.
fn push_end(ends: &mut Ends, turn: Turn) -> Result<(), NoMemory>
    ensures { OnOk result (ends.new ≡ ends.old ++ ends_in turn) }
{
    let Turn { end, .. } = turn;
    match end {
        None => Ok(()),
        Some(end) => ends.push(end),
    }
}

/// The ends from the last to the first.
fn reversed(alloc: Global, ends: Ends) -> Result<Ends, NoMemory>
    ensures { IfOk result (λ all. all ≡ reverse ends) }
{
    let mut rest = ends;
    let mut all = Items::new(alloc);
    while let Some(last) = rest.pop() {
        all.push(last)?;
    }
    Ok(all)
}
