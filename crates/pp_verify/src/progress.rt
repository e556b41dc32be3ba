//! How far the work on a check has come.

ghost use Rattle.std.specs.Prelude.{◌≡◌, ◌≤◌};
ghost use Rattle.pp_limits.specs.declared.TheConstants.{ROUNDS};
ghost use Rattle.pp_verify.specs.Rounds.{step_after};
ghost use Rattle.pp_verify.specs.Rounds as spec;

use pp_induct::{CheckEnd, Limits, Why};
use pp_prog::{CheckId, FunctionId};

/// How far the work on a check of the function has come: the round that comes next.
#[derive(Clone, Copy)]
pub struct Progress {
    pub function: FunctionId,
    pub check: CheckId,
    pub round: u32,
}

/// What a round gives: the end of the check, or how far the work has come.
#[derive(Drop)]
pub enum Step {
    Ended(CheckEnd),
    Next(Progress),
}

impl Progress {
    /// What follows a round that ended nothing: the next one, or that the check is open, where this was the last round.
    pub(crate) fn after(self, limits: Limits) -> Step
        requires { self.round ≤ ROUNDS.most }
        ensures { result ≡ step_after limits self }
    {
        if self.round == limits.rounds {
            return Step::Ended(CheckEnd::Open {
                searched: Some(self.round),
                why: Why::Rounds,
            });
        }
        Step::Next(Progress {
            round: self.round + 1,
            ..self
        })
    }
}

/// Open, where this round wasn't searched and the one before it was.
pub(crate) fn open_before(round: u32, why: Why) -> CheckEnd
    ensures { result ≡ spec.open_before round why }
{
    CheckEnd::Open {
        searched: round.checked_sub(1),
        why,
    }
}
