//! What comes in before a tree that is looked at is entered.

ghost use Rattle.std.specs.Prelude.{◌+◌, ◌^◌, ◌<◌, ◌≤◌, length, IfOk};
ghost use Rattle.pp_prog.specs.Sizes.{ctors_of};
ghost use Rattle.pp_domain.specs.Moves.{Moves};
ghost use Rattle.pp_named_trees.specs.Meaning.{NamedFits, named_sense};
ghost use Rattle.pp_named_expand.specs.Prepared.{IsPrepared, prepare_gates};

use crate::NoMemory;
use crate::groups::touch;
use pp_gate::Circuit;
use pp_list::Items;
use pp_named_contents::{fresh_contents, keep_all};
use pp_named_instances::make_levels;
use pp_named_trees::{Alternative, NamedTrees};
use pp_prog::{DataId, TypeTable};

/// Contents for a tree of this datatype, which has constructors: levels for the datatype and its fields, all
/// constructors with new fields, and the trees of these fields. On `NoMemory` some of that may have come in.
pub fn prepare(
    trees: &mut NamedTrees,
    circuit: &mut Circuit,
    table: &TypeTable,
    of: DataId,
) -> Result<Items<Alternative>, NoMemory>
    requires fits { NamedFits table.now trees.old circuit.old }
    requires of { of.0 < length table.now.datatypes }
    requires some { 1 ≤ length (ctors_of table.now of) }
    requires room { length circuit.old + prepare_gates table.now of ≤ 2 ^ 30 }
    ensures moves { Moves named_sense table.now trees.old circuit.old trees.new circuit.new
        (prepare_gates table.now of) }
    ensures prepared { IfOk result (λ xs. IsPrepared table.now trees.old circuit.old trees.new circuit.new of xs) }
{
    touch(trees, circuit, table)?;
    make_levels(trees, circuit, table, of)?;
    let alternatives = fresh_contents(circuit, trees.low, table, of)?;
    keep_all(trees, circuit, alternatives.as_slice())?;
    Ok(alternatives)
}
