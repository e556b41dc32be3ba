//! Typed units of which it is known that they are well sorted.

ghost use Rattle.std.specs.Prelude.{◌≡◌};
ghost use Rattle.pp_typed.specs.WellSorted.{IsWellSorted};

use pp_typed::Typed;
use std::marker::Model;

/// Typed units that are well sorted: each number is in range, each expression has its sort, each root has a value at
/// all its arguments, and names tell declarations apart. Contracts see them as the typed units.
#[derive(Drop)]
pub struct WellSorted {
    typed: Typed,
}

impl Model for WellSorted {
    ghost use Rattle.std.specs.Coded.{codes};
    ghost use Rattle.pp_typed.specs.WellSorted.{IsWellSorted};
    ghost use Rattle.pp_typed.specs.contracts.expr.TypedExpr as expr;
    ghost use Rattle.pp_typed.specs.contracts.pattern.TypedPattern as pattern;
    ghost use Rattle.pp_typed.specs.contracts.sort.GenericSort as sort;
    ghost use Rattle.pp_typed.specs.declared.typed.Typed.{Typed};

    ghost Value = { Typed };

    ghost coded = { Prim.hlevel (codes, expr.the_row.coded, pattern.the_row.coded, sort.the_row.coded) };

    ghost view = { λ w. w.typed };

    ghost invariant = { λ w. IsWellSorted w.typed };
}

impl WellSorted {
    /// These typed units, which are well sorted.
    pub fn of(typed: Typed) -> WellSorted
        requires { IsWellSorted typed }
        ensures { result ≡ typed }
    {
        WellSorted { typed }
    }

    /// The typed units. It takes no memory.
    pub fn typed(&self) -> &Typed
        ensures same { result.now ≡ self.now }
        ensures sorted { IsWellSorted result.now }
    {
        &self.typed
    }
}
