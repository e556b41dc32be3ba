//! Looks at a tree: its constructor and its fields.

ghost use Rattle.std.specs.Prelude.{◌≡◌, ℕ, ◌<◌, length, slice_get, Some};
ghost use Rattle.std.specs.Option.{option_copied};
ghost use Rattle.pp_gate.specs.Circuit.{IsOf};
ghost use Rattle.pp_domain.specs.Answers.{IsCtorTest};
ghost use Rattle.pp_bounded_trees.specs.Alternatives.{IsLiteralAt, IsPlaceOf, found};
ghost use Rattle.pp_bounded_trees.specs.Arena.{TreeFits};
ghost use Rattle.pp_bounded_trees.specs.Meaning.{BoundedFits, bounded_sense};

use crate::arena::{Alternative, BoundedTree, Trees};
use pp_clause::Lit;
use pp_gate::Circuit;
use pp_list::at;
use pp_prog::{CtorId, TypeTable};

/// The place of the constructor among those that a node may have, or their number where it isn't there.
pub fn place_of(ctor: CtorId, alternatives: &[Alternative]) -> usize
    ensures { IsPlaceOf ctor.0 alternatives.now result }
{
    for place in 0..alternatives.len() {
        if alternatives[place].ctor.0 == ctor.0 {
            return place;
        }
    }
    alternatives.len()
}

/// The constructor among those that a node may have, if it is there.
pub fn find(ctor: CtorId, alternatives: &[Alternative]) -> Option<&Alternative>
    ensures { option_copied result ≡ found ctor.0 alternatives.now }
{
    at(alternatives, place_of(ctor, alternatives))
}

/// The literal of the constructor at the place, and a false one past the end.
fn literal_at(circuit: &Circuit, alternatives: &[Alternative], place: usize) -> Lit
    requires { (j : ℕ) (y : _) → slice_get alternatives.now j ≡ Some y → IsOf circuit.now y.lit }
    ensures { IsLiteralAt circuit.now alternatives.now place result }
{
    if place < alternatives.len() {
        alternatives[place].lit
    } else {
        circuit.truth().negated()
    }
}

impl Trees {
    /// The literal that is true where the tree has the constructor.
    pub fn ctor_literal(
        &self,
        circuit: &Circuit,
        table: &TypeTable,
        tree: &BoundedTree,
        ctor: CtorId,
    ) -> Lit
        requires fits { BoundedFits table.now self.now circuit.now }
        requires tree { TreeFits self.now.nodes (length self.now.nodes) tree.now }
        ensures { IsCtorTest bounded_sense table.now self.now circuit.now self.now circuit.now tree.now ctor result }
    {
        let alternatives = self.nodes.as_slice()[tree.number as usize]
            .alternatives
            .as_slice();
        let place = place_of(ctor, alternatives);
        literal_at(circuit, alternatives, place)
    }
}
