//! The steps of a round fit its estimate.
//!
//! The function does nothing: its contract is a law about the definitions of `pp_steps` and `pp_estimate`, which
//! `specs/Laws` states.
#![tactic(auto)]

ghost use Rattle.pp_steps_gates.specs.Laws.{RunsFitEstimates};

/// Where the estimate of a round is small, the steps of the round's run take at most the estimate, on arguments up to
/// the depth.
pub fn runs_fit_estimates()
    ensures { RunsFitEstimates }
{}
