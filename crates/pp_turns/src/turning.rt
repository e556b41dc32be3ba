//! A turn: one round of one check.

ghost use Rattle.std.specs.Prelude.{◌≡◌, ◌∷◌, ◌<◌, IfOk, List, OnOk, Some, length, option_map, slice_get};
ghost use Rattle.pp_checks.specs.Plan.{IsPlanOf};
ghost use Rattle.pp_induct.specs.Reports.{AreLimits};
ghost use Rattle.pp_prog.specs.declared.id.CheckId.{CheckId as AnyCheck};
ghost use Rattle.pp_turns.specs.Parts.{open_turn, progress_of};
ghost use Rattle.pp_turns.specs.Parts as spec;
ghost use Rattle.pp_turns.specs.Turns.{AreAllShared, AreTurned, AreTurns, TouchesOnly};
ghost use Rattle.pp_verify.specs.Rounds.{HasCome, StepGives};

use crate::NoMemory;
use crate::part::Turn;
use crate::turns::Turns;
use pp_checks::Plan;
use pp_induct::Limits;
use pp_prog::{CheckId, Program};
use pp_verify::{Progress, Shared, Step, step};
use std::alloc::Global;

impl Turns {
    /// Works on the check in the round at which it stands. A check that has ended stays as it is, and so does each
    /// other check. A round that is passed over is a turn too. The only error is want of memory, and then all is given
    /// up.
    pub fn turn(
        self,
        alloc: Global,
        program: &Program,
        plan: &Plan,
        check: CheckId,
    ) -> Result<Turns, NoMemory>
        requires plan { IsPlanOf plan.now program.now }
        requires turns { AreTurns program.now self }
        requires check { check.0 < length program.now.checks }
        ensures turns { IfOk result (λ turns. AreTurns program.now turns) }
        ensures others { IfOk result (λ turns. TouchesOnly check.0 self turns) }
        ensures turned { IfOk result (λ turns. (names : List AnyCheck) → AreTurned names self.checks
            → AreTurned (check ∷ names) turns.checks) }
    {
        match self.progress_at(check) {
            None => Ok(self),
            Some(progress) => self.go_on(alloc, program, plan, check, progress),
        }
    }

    /// How far the work on the check has come, where it hasn't ended.
    fn progress_at(&self, check: CheckId) -> Option<Progress>
        requires { check.0 < length self.now.checks }
        ensures { option_map progress_of (slice_get self.now.checks check.0) ≡ Some result }
    {
        let checks = self.checks.as_slice();
        let place = check.0 as usize;
        checks[place].open_progress()
    }

    /// Works on the check, which hasn't ended, in the round to which the work has come.
    fn go_on(
        self,
        alloc: Global,
        program: &Program,
        plan: &Plan,
        check: CheckId,
        progress: Progress,
    ) -> Result<Turns, NoMemory>
        requires plan { IsPlanOf plan.now program.now }
        requires turns { AreTurns program.now self }
        requires at { slice_get self.checks check.0 ≡ Some (open_turn progress) }
        ensures turns { IfOk result (λ turns. AreTurns program.now turns) }
        ensures others { IfOk result (λ turns. TouchesOnly check.0 self turns) }
        ensures turned { IfOk result (λ turns. (names : List AnyCheck) → AreTurned names self.checks
            → AreTurned (check ∷ names) turns.checks) }
    {
        let Turns {
            mut checks,
            mut shared,
            limits,
        } = self;
        let given = one_turn(alloc, program, plan, limits, progress, &mut shared)?;
        checks.set(check.0 as usize, turn_after(progress, given));
        Ok(Turns {
            checks,
            shared,
            limits,
        })
    }
}

/// One round of the work on a check, with what the checks of its function share.
fn one_turn(
    alloc: Global,
    program: &Program,
    plan: &Plan,
    limits: Limits,
    progress: Progress,
    shared: &mut Vec<Shared>,
) -> Result<Step, NoMemory>
    requires plan { IsPlanOf plan.now program.now }
    requires limits { AreLimits limits }
    requires come { HasCome program.now limits progress }
    requires size { length shared.old.items ≡ length program.now.functions }
    requires shared { AreAllShared program.now limits shared.old.items }
    ensures step { IfOk result (λ step. StepGives program.now limits progress step) }
    ensures size { length shared.new.items ≡ length shared.old.items }
    ensures shared { OnOk result (AreAllShared program.now limits shared.new.items) }
{
    let place = progress.function.0 as usize;
    let own = &mut shared[place];
    step(alloc, program, plan, limits, progress, own)
}

/// What is kept of a check behind a round to which its work had come.
fn turn_after(progress: Progress, given: Step) -> Turn
    ensures { result ≡ spec.turn_after progress given }
{
    match given {
        Step::Ended(end) => Turn {
            progress,
            end: Some(end),
        },
        Step::Next(next) => Turn {
            progress: next,
            end: None,
        },
    }
}
