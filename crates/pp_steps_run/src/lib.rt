//! Values that obey the steps of a run tell the run: the laws of steps.
//!
//! Each function does nothing: its contract is a law about the definitions of `pp_steps` and `pp_eval`, which
//! `specs/Laws` states.
#![tactic(auto)]

ghost use Rattle.pp_steps_run.specs.Laws.{TellRuns};

/// In values that obey the steps of a run the number of `fails` is true exactly where the run on the arguments fails
/// the asked check.
pub fn tell_runs()
    ensures { TellRuns }
{}
