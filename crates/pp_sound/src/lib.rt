//! Type soundness: the laws of the runs of a valid program on arguments of the parameters' sorts.
//!
//! Each function does nothing: its contract is a law about the definitions of `pp_prog` and `pp_eval`, which
//! `specs/Sound` states.
#![tactic(auto)]

ghost use Rattle.pp_sound.specs.Sound.{CanAnswerSorted, DeepByFuelAlone, FailListedChecks};
ghost use Rattle.pp_sound.specs.Sound.{KeepSorts, NeverStuck};

/// No run is stuck: no expression of a valid program meets values that it has no meaning for.
pub fn never_stuck()
    ensures { NeverStuck }
{}

/// Only want of fuel makes a run `Deep`.
pub fn deep_by_fuel_alone()
    ensures { DeepByFuelAlone }
{}

/// What `deep_by_fuel_alone` supposes of the calls that are nested too deep can be met in each program.
pub fn can_answer_sorted()
    ensures { CanAnswerSorted }
{}

/// A run that is done has a value of the result's sort.
pub fn keep_sorts()
    ensures { KeepSorts }
{}

/// The check that a run fails is listed, as one of the function that fails it.
pub fn fail_listed_checks()
    ensures { FailListedChecks }
{}
