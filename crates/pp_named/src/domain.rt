//! Named trees as a domain: each call is that of the crate in which it stands.

ghost use Rattle.std.specs.Prelude.{◌≡◌};
ghost use Rattle.pp_named_trees.specs.Laws.{named_laws};
ghost use Rattle.pp_named_trees.specs.Meaning.{named_sense};

use crate::NoMemory;
use crate::named::Named;
use pp_clause::Lit;
use pp_domain::{Domain, Symbol, Symbols};
use pp_gate::Circuit;
use pp_named_below::below;
use pp_named_expand::{construct, field, is_ctor};
use pp_named_trees::{NamedTree, NamedTrees};
use pp_prog::{CtorId, DataId, TypeTable};

impl Domain for Named {
    type Tree = NamedTree;

    ghost sense = { named_sense };

    fn fresh(circuit: &mut Circuit) -> Result<Named, NoMemory> {
        Ok(Named {
            trees: NamedTrees::over(circuit),
        })
    }

    fn limit_to(&mut self, values: u64) {
        self.trees.limit_to(values);
    }

    fn ok(&self) -> Lit {
        self.trees.ok
    }

    fn data_of(&self, tree: &NamedTree) -> DataId {
        tree.of
    }

    fn unknown(
        &mut self,
        circuit: &mut Circuit,
        table: &TypeTable,
        of: DataId,
        height: u32,
    ) -> Result<NamedTree, NoMemory> {
        let tree = self.trees.unknown(circuit, table, of, height)?;
        Ok(tree)
    }

    fn construct(
        &mut self,
        circuit: &mut Circuit,
        table: &TypeTable,
        ctor: CtorId,
        fields: &Symbols<NamedTree>,
    ) -> Result<NamedTree, NoMemory> {
        let tree = construct(&mut self.trees, circuit, table, ctor, fields)?;
        Ok(tree)
    }

    fn is_ctor(
        &mut self,
        circuit: &mut Circuit,
        table: &TypeTable,
        tree: &NamedTree,
        ctor: CtorId,
    ) -> Result<Lit, NoMemory> {
        let has = is_ctor(&mut self.trees, circuit, table, tree, ctor)?;
        Ok(has)
    }

    fn field(
        &mut self,
        circuit: &mut Circuit,
        table: &TypeTable,
        tree: &NamedTree,
        ctor: CtorId,
        place: u32,
    ) -> Result<Symbol<NamedTree>, NoMemory> {
        let symbol = field(&mut self.trees, circuit, table, tree, ctor, place)?;
        Ok(symbol)
    }

    fn merge(
        &mut self,
        circuit: &mut Circuit,
        table: &TypeTable,
        choice: Lit,
        left: &NamedTree,
        right: &NamedTree,
    ) -> Result<NamedTree, NoMemory> {
        let tree = self.trees.merge(circuit, table, choice, left, right)?;
        Ok(tree)
    }

    fn equal(
        &mut self,
        circuit: &mut Circuit,
        table: &TypeTable,
        left: &NamedTree,
        right: &NamedTree,
    ) -> Result<Lit, NoMemory> {
        let same = self.trees.equal(circuit, table, left, right)?;
        Ok(same)
    }

    fn below(
        &mut self,
        circuit: &mut Circuit,
        table: &TypeTable,
        new: &NamedTree,
        old: &NamedTree,
    ) -> Result<Lit, NoMemory> {
        let goes_down = below(&self.trees, circuit, table, new, old)?;
        Ok(goes_down)
    }

    ghost lawful = { named_laws };
}
