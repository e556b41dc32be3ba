//! Plain descents: no run and no guess run fails a measure check whose first component goes down to a variable that is
//! bound inside a parameter.
//!
//! `specs/Laws` states it. The function does nothing: its contract is the law.
#![tactic(auto)]

ghost use Rattle.pp_plain_laws.specs.Laws.{PlainNeverFail};

/// In a program that has a plan, no run and no guess run fails a measure check that is a plain descent. It does
/// nothing: its contract is the law.
pub fn plain_never_fail()
    ensures { PlainNeverFail }
{}
