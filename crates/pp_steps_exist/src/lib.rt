//! Each run has values that obey its steps, which look at earlier steps alone.
//!
//! Each function does nothing: its contract is a law about the definitions of `pp_steps`, which `specs/Laws` states.
#![tactic(auto)]

ghost use Rattle.pp_steps_exist.specs.Laws.{RunsAsk, RunsExist, RunsRead};

/// On all arguments of the parameters' sorts some values obey the steps of the run.
pub fn runs_exist()
    ensures { RunsExist }
{}

/// Each step of a run looks at earlier steps alone.
pub fn runs_read()
    ensures { RunsRead }
{}

/// The number that tells whether a run fails the check is that of a step.
pub fn runs_ask()
    ensures { RunsAsk }
{}
