//! Constructors with given fields.

ghost use Rattle.std.specs.Prelude.{◌≡◌, map, IfOk};
ghost use Rattle.pp_prog.specs.Values.{greatest};
ghost use Rattle.pp_domain.specs.Answers.{CanConstruct, IsConstruct};
ghost use Rattle.pp_domain.specs.Moves.{Moves, Steady};
ghost use Rattle.pp_bounded_trees.specs.Arena.{height_of as height_spec};
ghost use Rattle.pp_bounded_trees.specs.Meaning.{BoundedFits, bounded_sense};

use crate::NoMemory;
use crate::arena::{Alternative, BoundedTree, Node, Trees};
use pp_domain::{Symbol, Symbols};
use pp_gate::Circuit;
use pp_list::Items;
use pp_prog::{CtorId, TypeTable};
use std::alloc::AllocError;

impl Trees {
    /// The constructor with these fields: a node that can have no other. It adds nothing to the circuit.
    pub fn known(
        &mut self,
        circuit: &Circuit,
        table: &TypeTable,
        ctor: CtorId,
        fields: &Symbols<BoundedTree>,
    ) -> Result<BoundedTree, NoMemory>
        requires fits { BoundedFits table.now self.old circuit.now }
        requires fields { CanConstruct bounded_sense table.now self.old circuit.now ctor fields.now }
        ensures moves { Moves bounded_sense table.now self.old circuit.now self.new circuit.now 0 }
        ensures steady { Steady bounded_sense self.old circuit.now self.new circuit.now }
        ensures answer { IfOk result (λ t. IsConstruct bounded_sense table.now self.old circuit.now self.new
            circuit.now ctor fields.now t) }
    {
        let alloc = circuit.allocator();
        let of = table.ctor(ctor).of;
        let highest = highest(fields.as_slice());
        if highest == u64::MAX {
            return Err(AllocError);
        }
        let fields = Items::from_slice(alloc, fields.as_slice())?;
        let lit = circuit.truth();
        let mut alternatives = Items::new(alloc);
        alternatives.push(Alternative { ctor, lit, fields })?;
        let tree = self.push(Node {
            of,
            height: highest + 1,
            alternatives,
        })?;
        Ok(tree)
    }
}

/// The greatest height of the symbols, and 0 of none.
fn highest(fields: &[Symbol<BoundedTree>]) -> u64
    ensures { result ≡ greatest (map height_spec fields.now) }
{
    let mut most = 0u64;
    for field in fields {
        most = most.max(height_of(field));
    }
    most
}

/// The height of a symbol: that of its tree, and 0 of a word and a literal.
fn height_of(symbol: &Symbol<BoundedTree>) -> u64
    ensures { result ≡ height_spec symbol.now }
{
    match symbol {
        Symbol::Word(_) => 0,
        Symbol::Bit(_) => 0,
        Symbol::Tree(tree) => tree.height,
    }
}
