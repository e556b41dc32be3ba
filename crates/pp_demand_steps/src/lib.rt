//! The steps of a guess run whose calls are unfolded on demand: what values that obey them tell.
//!
//! A list begins with the own frame, all of whose calls are left open. A move adds what holds of one call that stands,
//! of its body or of its postcondition; no step says that calls agree. `specs/Moves` has the lists, `specs/Laws` states
//! the laws. Each function does nothing: its contract is the law.
#![tactic(auto)]

ghost use Rattle.pp_demand_steps.specs.Laws.{FailingMovesExist, MovesAreSorted, MovesExist, MovesRead};
ghost use Rattle.pp_demand_steps.specs.Laws.{MovesSuppose, WorldAlike};

/// Where moves are of calls that stand, each step looks at earlier steps alone, and what is asked for are steps. It
/// does nothing: its contract is the law.
pub fn moves_read()
    ensures { MovesRead }
{}

/// In a program that has a plan, the steps have sorts, those of the arguments being the parameters'. It does nothing:
/// its contract is the law.
pub fn moves_are_sorted()
    ensures { MovesAreSorted }
{}

/// On all arguments of the parameters' sorts some values obey the steps and have their sorts, where missing fields and
/// answers have theirs, and each sort has a default. It does nothing: its contract is the law.
pub fn moves_exist()
    ensures { MovesExist }
{}

/// Where a guess run fails the check, values that obey the steps, in which open calls have its answers, make the number
/// of `fails` and all that is supposed true: whichever calls were unfolded that the guess run has fuel for. It does
/// nothing: its contract is the law.
pub fn moves_suppose()
    ensures { MovesSuppose }
{}

/// In the world of a guess run two calls of one function on the same arguments that both have an answer have the same
/// one, however long they wait. It does nothing: its contract is the law.
pub fn world_alike()
    ensures { WorldAlike }
{}

/// Where a guess run fails the check, there are values with their sorts that obey the steps, whichever calls were
/// unfolded that the guess run has fuel for; they make the number of `fails` and all that is supposed true, and calls on
/// the same arguments are answered alike. It does nothing: its contract is the law.
pub fn failing_moves_exist()
    ensures { FailingMovesExist }
{}
