//! Values of a guess run that fails a check, whose calls are unfolded on demand: where one fails there are some, so a
//! list of moves that no values obey refutes that the check fails.
//!
//! `specs/DemandedGuess` states the law. The function does nothing: its contract is the law.
#![tactic(auto)]

ghost use Rattle.pp_demand_values.specs.DemandedGuess.{DemandedGuessHasValues};

/// Where some guess run fails the check, there are values that say so, whichever calls were unfolded that the guess run
/// has fuel for. It does nothing: its contract is the law.
pub fn demanded_guess_has_values()
    ensures { DemandedGuessHasValues }
{}
