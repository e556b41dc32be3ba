//! Laws of the grammar.
//!
//! The function does nothing: its contract is a law about the definitions of `pp_grammar`, which `specs/Laws.antt`
//! states. `proofs/` has what the contract of the parser rests on.
#![tactic(auto)]

ghost use Rattle.pp_grammar_laws.specs.Laws.{UnitIsUnique};

/// A text spells at most one unit.
pub fn unit_is_unique()
    ensures { UnitIsUnique }
{}
