//! Laws of written types. Each is a function that does nothing.

ghost use Rattle.pp_sorts.specs.Laws.{FaultsStand, SortsAreComputed};

/// A written type is a sort exactly where that is the sort that is computed, so it is at most one.
pub fn sorts_are_computed()
    ensures { SortsAreComputed }
{}

/// A fault that is computed stands there.
pub fn faults_stand()
    ensures { FaultsStand }
{}
