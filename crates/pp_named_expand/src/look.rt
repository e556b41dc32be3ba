//! A look at a tree.

ghost use Rattle.std.specs.Prelude.{◌≡◌, ◌+◌, ◌^◌, ◌≤◌, length, OnOk};
ghost use Rattle.pp_domain.specs.Allowance.{look_at_gates};
ghost use Rattle.pp_domain.specs.Moves.{Moves};
ghost use Rattle.pp_named_trees.specs.Arena.{IsExpanded, IsKept};
ghost use Rattle.pp_named_trees.specs.Meaning.{NamedFits, named_sense};
ghost use Rattle.pp_named_expand.specs.Looking.{HasCtors, IsLook};

use crate::NoMemory;
use crate::contents::prepare;
use crate::entry::enter;
use pp_gate::Circuit;
use pp_named_trees::find::place_of;
use pp_named_trees::{Expansion, NamedTree, NamedTrees};
use pp_prog::TypeTable;

/// Expands the tree, if it wasn't looked at before: its constructors and fields come in, within the allowance of a
/// look. A tree that was looked at before adds nothing. On `NoMemory` gates, inputs, levels and trees may have come in.
pub fn expand(
    trees: &mut NamedTrees,
    circuit: &mut Circuit,
    table: &TypeTable,
    tree: &NamedTree,
) -> Result<(), NoMemory>
    requires fits { NamedFits table.now trees.old circuit.old }
    requires tree { IsKept trees.old.nodes tree.now }
    requires ctors { HasCtors table.now tree.now.of }
    requires room { (IsExpanded trees.old.expansions tree.now → ⊥)
        → length circuit.old + look_at_gates named_sense table.now trees.old tree.now ≤ 2 ^ 30 }
    ensures moves { Moves named_sense table.now trees.old circuit.old trees.new circuit.new
        (look_at_gates named_sense table.now trees.old tree.now) }
    ensures still { IsExpanded trees.old.expansions tree.now → circuit.new ≡ circuit.old }
    ensures look { OnOk result (IsLook table.now trees.old circuit.old trees.new circuit.new tree.now) }
{
    if place_of(trees.expansions.as_slice(), tree) < trees.expansions.len() {
        return Ok(());
    }
    let alternatives = prepare(trees, circuit, table, tree.of)?;
    let of = tree.of;
    let name = tree.name;
    enter(
        trees,
        circuit,
        table,
        Expansion {
            of,
            name,
            alternatives,
        },
    )?;
    Ok(())
}
