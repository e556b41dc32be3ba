//! A tree that is looked at is entered.

ghost use Rattle.std.specs.Prelude.{◌+◌, ◌^◌, ◌≤◌, length, IfOk, OnOk};
ghost use Rattle.pp_gate.specs.Growth.{AddsGates};
ghost use Rattle.pp_checks.specs.Tables.{field_table};
ghost use Rattle.pp_graph.specs.Reaches.{AreGroups};
ghost use Rattle.pp_domain.specs.Moves.{Moves};
ghost use Rattle.pp_named_trees.specs.Arena.{ExpansionFits};
ghost use Rattle.pp_named_trees.specs.Meaning.{NamedFits, named_sense};
ghost use Rattle.pp_named_instances.specs.Condition.{HaveLevels, IsCondition};
ghost use Rattle.pp_named_expand.specs.Entered.{IsEntered, condition_gates, enter_gates};

use crate::NoMemory;
use pp_clause::Lit;
use pp_gate::Circuit;
use pp_named_instances::{agreements, in_order};
use pp_named_trees::{Expansion, NamedTrees};
use pp_prog::TypeTable;

/// The condition on a tree with its contents: it agrees with the trees that were looked at before, and comes after its
/// fields.
fn condition(
    trees: &NamedTrees,
    circuit: &mut Circuit,
    table: &TypeTable,
    y: &Expansion,
) -> Result<Lit, NoMemory>
    requires fits { NamedFits table.now trees.now circuit.old }
    requires own { ExpansionFits circuit.old trees.now.nodes table.now y.now }
    requires levels { HaveLevels trees.now.groups trees.now.levels y.now }
    requires room { length circuit.old + condition_gates trees.now y.now ≤ 2 ^ 30 }
    ensures adds { AddsGates circuit.old circuit.new (condition_gates trees.now y.now) }
    ensures condition { IfOk result (λ l. IsCondition table.now circuit.new trees.now y.now l) }
{
    let agree = agreements(circuit, y, trees.expansions.as_slice())?;
    let ordered = in_order(circuit, trees.groups.as_slice(), trees.levels.as_slice(), y)?;
    let both = circuit.and(agree, ordered)?;
    Ok(both)
}

/// Puts in a tree with its contents, under the condition that it agrees with the trees that were looked at before and
/// comes after its fields. On `NoMemory` gates may have come in, and no tree.
pub fn enter(
    trees: &mut NamedTrees,
    circuit: &mut Circuit,
    table: &TypeTable,
    y: Expansion,
) -> Result<(), NoMemory>
    requires fits { NamedFits table.now trees.old circuit.old }
    requires groups { AreGroups (field_table table.now) trees.old.groups }
    requires own { ExpansionFits circuit.old trees.old.nodes table.now y }
    requires levels { HaveLevels trees.old.groups trees.old.levels y }
    requires room { length circuit.old + enter_gates trees.old y ≤ 2 ^ 30 }
    ensures moves { Moves named_sense table.now trees.old circuit.old trees.new circuit.new (enter_gates trees.old y) }
    ensures entered { OnOk result (IsEntered table.now trees.old circuit.old trees.new circuit.new y) }
{
    let holds = condition(trees, circuit, table, &y)?;
    let ok = circuit.and(trees.ok, holds)?;
    trees.expansions.push(y)?;
    trees.ok = ok;
    Ok(())
}
