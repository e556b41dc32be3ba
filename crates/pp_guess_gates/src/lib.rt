//! The steps of a round of a guess run fit the estimate of that round.
//!
//! The function does nothing: its contract is a law about the definitions of `pp_steps` and `pp_estimate`, which
//! `specs/Laws` states. `specs/Measure` says what steps take where trees have names.
#![tactic(auto)]

ghost use Rattle.pp_guess_gates.specs.Laws.{GuessesFit};

/// The steps of a round of a guess run, performed where trees have names, take at most as many gates and inputs as that
/// round by itself is estimated at, on arguments of depth 1.
pub fn guesses_fit()
    ensures { GuessesFit }
{}
