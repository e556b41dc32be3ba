//! Laws of trees. Each function does nothing: its contract is the law.

ghost use Rattle.std.specs.Prelude.{◌<◌, ◌≤◌, MatchOption};
ghost use Rattle.pp_tree.specs.Height.{unit_height};
ghost use Rattle.pp_tree.specs.Plain.{UnitTree};
ghost use Rattle.pp_tree.specs.Roots.{too_high, unit_roots};

/// A unit is higher than 64 exactly where one of its roots is.
pub fn unit_is_as_high_as_its_roots()
    ensures { (u : UnitTree) → MatchOption (too_high (unit_roots u)) (unit_height u ≤ 64) (λ at. 64 < unit_height u) }
{}
