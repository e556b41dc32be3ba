//! Bounded trees as a domain.

ghost use Rattle.std.specs.Prelude.{◌≡◌};
ghost use Rattle.pp_bounded_trees.specs.Laws.{bounded_laws};
ghost use Rattle.pp_bounded_trees.specs.Meaning.{bounded_sense};

use crate::NoMemory;
use crate::bounded::Bounded;
use pp_bounded_equal::{below_trees, equal_trees};
use pp_bounded_merge::merge_trees;
use pp_bounded_trees::{BoundedTree, Trees};
use pp_bounded_unknown::unknown_tree;
use pp_clause::Lit;
use pp_domain::{Domain, Symbol, Symbols};
use pp_gate::Circuit;
use pp_prog::{CtorId, DataId, TypeTable};

impl Domain for Bounded {
    type Tree = BoundedTree;

    ghost sense = { bounded_sense };

    fn fresh(circuit: &mut Circuit) -> Result<Bounded, NoMemory> {
        Ok(Bounded {
            trees: Trees::over(circuit),
        })
    }

    fn limit_to(&mut self, _values: u64) {}

    fn ok(&self) -> Lit {
        self.trees.ok
    }

    fn data_of(&self, tree: &BoundedTree) -> DataId {
        tree.of
    }

    fn unknown(
        &mut self,
        circuit: &mut Circuit,
        table: &TypeTable,
        of: DataId,
        height: u32,
    ) -> Result<BoundedTree, NoMemory> {
        let tree = unknown_tree(&mut self.trees, circuit, table, of, height)?;
        Ok(tree)
    }

    fn construct(
        &mut self,
        circuit: &mut Circuit,
        table: &TypeTable,
        ctor: CtorId,
        fields: &Symbols<BoundedTree>,
    ) -> Result<BoundedTree, NoMemory> {
        let tree = self.trees.known(circuit, table, ctor, fields)?;
        Ok(tree)
    }

    fn is_ctor(
        &mut self,
        circuit: &mut Circuit,
        table: &TypeTable,
        tree: &BoundedTree,
        ctor: CtorId,
    ) -> Result<Lit, NoMemory> {
        Ok(self.trees.ctor_literal(circuit, table, tree, ctor))
    }

    fn field(
        &mut self,
        circuit: &mut Circuit,
        table: &TypeTable,
        tree: &BoundedTree,
        ctor: CtorId,
        place: u32,
    ) -> Result<Symbol<BoundedTree>, NoMemory> {
        let symbol = self.trees.field_symbol(circuit, table, tree, ctor, place)?;
        Ok(symbol)
    }

    fn merge(
        &mut self,
        circuit: &mut Circuit,
        table: &TypeTable,
        choice: Lit,
        left: &BoundedTree,
        right: &BoundedTree,
    ) -> Result<BoundedTree, NoMemory> {
        let tree = merge_trees(&mut self.trees, circuit, table, choice, left, right)?;
        Ok(tree)
    }

    fn equal(
        &mut self,
        circuit: &mut Circuit,
        table: &TypeTable,
        left: &BoundedTree,
        right: &BoundedTree,
    ) -> Result<Lit, NoMemory> {
        let same = equal_trees(&self.trees, circuit, table, left, right)?;
        Ok(same)
    }

    fn below(
        &mut self,
        circuit: &mut Circuit,
        table: &TypeTable,
        new: &BoundedTree,
        old: &BoundedTree,
    ) -> Result<Lit, NoMemory> {
        let below = below_trees(&self.trees, circuit, table, new, old)?;
        Ok(below)
    }

    ghost lawful = { bounded_laws };
}
