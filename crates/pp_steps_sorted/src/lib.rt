//! The steps of a run are well sorted.
//!
//! The function does nothing: its contract is a law about the definitions of `pp_steps`, which `specs/Laws` states.
#![tactic(auto)]

ghost use Rattle.pp_steps_sorted.specs.Laws.{RunsAreSorted};

/// In a program that has a plan, the steps of each run have sorts, those of the arguments being the parameters'.
pub fn runs_are_sorted()
    ensures { RunsAreSorted }
{}
