//! The arguments that an assignment tells.

ghost use Rattle.std.specs.Prelude.{All, IfOk};
ghost use Rattle.pp_bounded_trees.specs.Meaning.{bounded_sense};
ghost use Rattle.pp_bounded_trees.specs.Readable.{IsReadable};
ghost use Rattle.pp_clause.specs.Assignment.{assigned};
ghost use Rattle.pp_domain.specs.Naming.{Naming};
ghost use Rattle.pp_domain.specs.Symbols.{SymbolsStand};

use crate::NoMemory;
use pp_bounded::{Bounded, BoundedTree};
use pp_clause::Assignment;
use pp_domain::Symbol;
use pp_list::Items;
use pp_prog::{TypeTable, Values};
use std::alloc::Global;

/// The values for which the symbols stand under the assignment.
pub fn read_all(
    alloc: Global,
    domain: &Bounded,
    table: &TypeTable,
    assignment: &Assignment,
    symbols: &[Symbol<BoundedTree>],
) -> Result<Values, NoMemory>
    requires { All (IsReadable table.now domain.now (assigned assignment.now)) symbols.now }
    ensures { IfOk result (λ values. (n : Naming) → SymbolsStand bounded_sense domain.now (assigned assignment.now) n
        symbols.now values) }
{
    let mut values = Items::new(alloc);
    for symbol in symbols {
        let value = domain.read(alloc, table, assignment, symbol)?;
        values.push(value)?;
    }
    Ok(values)
}
