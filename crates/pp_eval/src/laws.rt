//! Laws of runs, as contracts of functions that do nothing.

ghost use Rattle.pp_eval.specs.Equality.{CompareTrees};
ghost use Rattle.pp_eval.specs.Laws.{LastsWithFuel, PartsLastWithFuel};

/// An outcome other than `Deep` stays the same with more fuel. It does nothing: its contract is the law.
pub fn lasts_with_fuel()
    ensures { LastsWithFuel }
{}

/// More fuel changes no part of a run but what is `Deep`. It does nothing: its contract is the law.
pub fn parts_last_with_fuel()
    ensures { PartsLastWithFuel }
{}

/// The tests of evaluation say when two values are equal, and when one is a proper subtree of the other. It does
/// nothing: its contract is the law.
pub fn compare_trees()
    ensures { CompareTrees }
{}
