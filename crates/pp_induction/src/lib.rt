//! Why valid means good: where each check of a function's cone is settled, each function of the cone is good. A check
//! is settled where no guess run of some round fails it, or where it is exhausted.
//!
//! `specs/Ends` says when a check is settled, and states the laws. The functions do nothing: their contracts are the
//! laws.
#![tactic(auto)]

ghost use Rattle.pp_induction.specs.Ends.{GoodNeverFail, SettledAreGood};

/// In a program that has a plan, where each check of the cone of a function is settled, each function of the cone is
/// good. It does nothing: its contract is the law.
pub fn settled_are_good()
    ensures { SettledAreGood }
{}

/// There no run of a function of the cone fails a check, whatever its fuel. It does nothing: its contract is the law.
pub fn good_never_fail()
    ensures { GoodNeverFail }
{}
