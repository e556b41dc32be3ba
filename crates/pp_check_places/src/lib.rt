//! Why two checks of one function differ in kind or in place. The function does nothing: its contract is the law.
#![tactic(auto)]

ghost use Rattle.pp_mono.specs.Laws.{PlacesTellChecks};

/// Two checks of one function of a program differ in kind or in place. It does nothing: its contract is the law.
pub fn places_tell_checks()
    ensures { PlacesTellChecks }
{}
