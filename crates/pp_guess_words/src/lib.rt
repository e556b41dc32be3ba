//! In a word function no step of a guess run has a tree, so words that are read off registers tell guess runs.
//!
//! `specs/Laws` states the laws. Each function does nothing: its contract is the law. `proofs/ReadGuesses` puts them
//! together for values of which each step tells what is known.
#![tactic(auto)]

ghost use Rattle.pp_guess_words.specs.Laws.{NoTrees, ValuesFail};

/// In a function whose cone meets no datatype no step of a guess run has the sort of a datatype. It does nothing: its
/// contract is the law.
pub fn no_trees()
    ensures { NoTrees }
{}

/// Values that obey all steps but the open calls and have the sorts of their steps, for which the check fails and all
/// that is supposed is true, are those of a guess run that fails the check. It does nothing: its contract is the law.
pub fn values_fail()
    ensures { ValuesFail }
{}
