//! Laws of declarations. Each is a function that does nothing.

ghost use Rattle.pp_declared.specs.Laws.{DeclarationsAreComputed, FaultsStand};

/// Units declare exactly what is computed, so at most one list of each kind, and nothing where a fault is computed.
pub fn declarations_are_computed()
    ensures { DeclarationsAreComputed }
{}

/// A fault that is computed stands there.
pub fn faults_stand()
    ensures { FaultsStand }
{}
