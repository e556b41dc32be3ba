//! The laws of typing. Each is the contract of a function that does nothing.
//!
//! What is computed is exactly what the rules give, so an expression, a pattern or a function has at most one typing.
#![tactic(auto)]

ghost use Rattle.pp_typing_laws.specs.Laws.{DefFaultsStand, DefsAsRuled, ExprsAsRuled, FaultsStand, OneTyping};

/// An expression is given a typing exactly where the rules give it that one.
pub fn exprs_as_ruled()
    ensures { ExprsAsRuled }
{}

/// An expression is refused only with a fault that stands in it.
pub fn faults_stand()
    ensures { FaultsStand }
{}

/// A function is given a typing exactly where the rules give it that one.
pub fn defs_as_ruled()
    ensures { DefsAsRuled }
{}

/// A function has at most one typing.
pub fn one_typing()
    ensures { OneTyping }
{}

/// A function is refused only with a fault that stands in it.
pub fn def_faults_stand()
    ensures { DefFaultsStand }
{}
