//! The domain, and what is read of it.

ghost use Rattle.std.specs.Prelude.{◌≡◌, IfOk};
ghost use Rattle.pp_clause.specs.Assignment.{assigned};
ghost use Rattle.pp_domain.specs.Naming.{Naming};
ghost use Rattle.pp_domain.specs.Symbols.{SymbolStands};
ghost use Rattle.pp_bounded_trees.specs.Meaning.{bounded_sense};
ghost use Rattle.pp_bounded_trees.specs.Readable.{IsReadable};

use crate::NoMemory;
use pp_bounded_trees::{BoundedTree, Trees};
use pp_clause::Assignment;
use pp_domain::Symbol;
use pp_prog::{TypeTable, Value};
use std::alloc::Global;
use std::marker::Model;

/// Trees up to a height. Contracts see it as its trees.
#[derive(Drop)]
pub struct Bounded {
    pub(crate) trees: Trees,
}

impl Model for Bounded {
    ghost use Rattle.pp_bounded_trees.specs.declared.arena.Trees.{Trees};

    ghost Value = { Trees };

    ghost view = { λ b. b.trees };
}

impl Bounded {
    /// The value that the symbol stands for under the assignment. It does stand for one, and the assignment gives each
    /// gate of the domain's circuit its value. The only error is want of memory.
    pub fn read(
        &self,
        alloc: Global,
        table: &TypeTable,
        assignment: &Assignment,
        symbol: &Symbol<BoundedTree>,
    ) -> Result<Value, NoMemory>
        requires { IsReadable table.now self.now (assigned assignment.now) symbol.now }
        ensures { IfOk result (λ v. (n : Naming) → SymbolStands bounded_sense self.now (assigned assignment.now) n
            symbol.now v) }
    {
        let value = self.trees.read(alloc, table, assignment, symbol)?;
        Ok(value)
    }
}
