//! A domain without trees.

ghost use Rattle.pp_domain.specs.Answers.{IsNew};
ghost use Rattle.pp_bounded_trees.specs.Meaning.{bounded_sense};

use crate::arena::Trees;
use pp_gate::Circuit;
use pp_list::Items;

impl Trees {
    /// A domain without trees, which wants nothing of the circuit.
    pub fn over(circuit: &Circuit) -> Trees
        ensures { (types : _) → IsNew bounded_sense types result circuit.now }
    {
        Trees {
            nodes: Items::new(circuit.allocator()),
            ok: circuit.truth(),
        }
    }
}
