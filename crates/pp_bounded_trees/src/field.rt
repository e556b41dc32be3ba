//! Fields of a tree.

ghost use Rattle.std.specs.Prelude.{◌≡◌, ◌+◌, ◌-◌, ◌≤◌, ◌<◌, ◌^◌, length, slice_get, Some, IfOk};
ghost use Rattle.pp_prog.specs.declared.sort.Sort.{Sort as SortSpec};
ghost use Rattle.pp_domain.specs.Answers.{HasField, IsCtorOf, IsFieldRead};
ghost use Rattle.pp_domain.specs.Moves.{Moves, Steady};
ghost use Rattle.pp_bounded_trees.specs.Alternatives.{field_in, found};
ghost use Rattle.pp_bounded_trees.specs.Arena.{TreeFits};
ghost use Rattle.pp_bounded_trees.specs.Fields.{IsBlank, lowered as lowered_spec};
ghost use Rattle.pp_bounded_trees.specs.Meaning.{BoundedFits, bounded_sense};

use crate::NoMemory;
use crate::arena::{Alternative, BoundedTree, Node, Trees};
use crate::look::place_of;
use pp_domain::{Symbol, blank_plain};
use pp_gate::Circuit;
use pp_list::{Items, at};
use pp_prog::{CtorId, Sort, TypeTable};

/// The symbol, as one of this height where it is a tree.
fn lowered(symbol: &Symbol<BoundedTree>, height: u64) -> Symbol<BoundedTree>
    ensures { result ≡ lowered_spec height symbol.now }
{
    match symbol {
        Symbol::Word(word) => Symbol::Word(*word),
        Symbol::Bit(lit) => Symbol::Bit(*lit),
        Symbol::Tree(tree) => Symbol::Tree(BoundedTree {
            number: tree.number,
            of: tree.of,
            height,
        }),
    }
}

/// The sort of the field at a place of the constructor.
fn field_sort(table: &TypeTable, ctor: CtorId, place: u32) -> Sort
    requires { (s : SortSpec) × HasField table.now ctor place s }
    ensures { HasField table.now ctor place result }
{
    table.ctor(ctor).fields.as_slice()[place as usize]
}

/// The field at a place of the constructor that stands at `at`, if both are there.
pub fn field_at(
    alternatives: &[Alternative],
    place: usize,
    field: u32,
) -> Option<Symbol<BoundedTree>>
    ensures { result ≡ field_in field (slice_get alternatives.now place) }
{
    if place >= alternatives.len() {
        return None;
    }
    match at(alternatives[place].fields.as_slice(), field as usize) {
        Some(symbol) => Some(*symbol),
        None => None,
    }
}

impl Trees {
    /// The field at a place, counted from 0, of the constructor, as the tree may have it.
    pub fn field_symbol(
        &mut self,
        circuit: &mut Circuit,
        table: &TypeTable,
        tree: &BoundedTree,
        ctor: CtorId,
        place: u32,
    ) -> Result<Symbol<BoundedTree>, NoMemory>
        requires fits { BoundedFits table.now self.old circuit.old }
        requires tree { TreeFits self.old.nodes (length self.old.nodes) tree.now }
        requires ctor { IsCtorOf table.now ctor tree.now.of }
        requires place { (s : SortSpec) × HasField table.now ctor place s }
        ensures moves { Moves bounded_sense table.now self.old circuit.old self.new circuit.new 0 }
        ensures steady { Steady bounded_sense self.old circuit.old self.new circuit.new }
        ensures answer { IfOk result (λ r. (s : SortSpec) → HasField table.now ctor place s
            → IsFieldRead bounded_sense table.now self.old circuit.old self.new circuit.new tree.now ctor place s r) }
    {
        let height = tree.height.saturating_sub(1);
        let alternatives = self.alternatives(tree);
        let own = place_of(ctor, alternatives);
        match field_at(alternatives, own, place) {
            Some(field) => Ok(lowered(&field, height)),
            None => {
                let blank = self.blank(circuit, table, ctor, place, height)?;
                Ok(blank)
            }
        }
    }

    /// A symbol of the sort of this field, of which nothing is asked.
    fn blank(
        &mut self,
        circuit: &mut Circuit,
        table: &TypeTable,
        ctor: CtorId,
        place: u32,
        height: u64,
    ) -> Result<Symbol<BoundedTree>, NoMemory>
        requires fits { BoundedFits table.now self.old circuit.old }
        requires place { (s : SortSpec) × HasField table.now ctor place s }
        requires height { height ≤ 2 ^ 32 + length self.old.nodes }
        ensures same { circuit.new ≡ circuit.old }
        ensures moves { Moves bounded_sense table.now self.old circuit.old self.new circuit.new 0 }
        ensures steady { Steady bounded_sense self.old circuit.old self.new circuit.new }
        ensures answer { IfOk result (λ r. (s : SortSpec) → HasField table.now ctor place s
            → IsBlank self.new circuit.new height s r) }
    {
        let sort = field_sort(table, ctor, place);
        match sort {
            Sort::Tree(of) => {
                let alternatives = Items::new(circuit.allocator());
                let tree = self.push(Node {
                    of,
                    height,
                    alternatives,
                })?;
                Ok(Symbol::Tree(tree))
            }
            _ => {
                let plain = blank_plain(circuit, sort)?;
                Ok(plain)
            }
        }
    }
}
