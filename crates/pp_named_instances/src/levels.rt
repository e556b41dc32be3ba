//! Levels of datatypes in the order of their group.

ghost use Rattle.std.specs.Prelude.{◌≡◌, ◌↔◌, ◌+◌, ◌^◌, ◌≤◌, length, IsTrue, OnOk, Some, slice_get};
ghost use Rattle.pp_checks.specs.Tables.{field_table};
ghost use Rattle.pp_graph.specs.Reaches.{AreGroups};
ghost use Rattle.pp_bounded_trees.specs.Possible.{total};
ghost use Rattle.pp_named_trees.specs.Meaning.{NamedFits};
ghost use Rattle.pp_named_instances.specs.Condition.{HasLevel};
ghost use Rattle.pp_named_instances.specs.Levels.{AddsLevels, DataHasLevels, SortHasLevel, SortsHaveLevels, WasMade};
ghost use Rattle.pp_named_instances.specs.Levels.{level_gates, levels_gates};

use crate::NoMemory;
use crate::order::is_one_group;
use pp_checks::ctors_of;
use pp_gate::{Circuit, Word};
use pp_list::at;
use pp_named_trees::{Level, NamedTrees};
use pp_prog::{DataId, Sort, TypeTable};

/// Whether the datatype is the first of its group.
fn is_first(groups: &[u32], d: DataId) -> bool
    ensures { IsTrue result ↔ (slice_get groups.now d.0 ≡ Some d.0) }
{
    match at(groups, d.0 as usize) {
        Some(first) => *first == d.0,
        None => false,
    }
}

/// Whether a level was made for the datatype.
fn was_made(levels: &[Level], d: DataId) -> bool
    ensures { IsTrue result → WasMade levels.now d }
{
    for place in 0..levels.len() {
        if levels[place].of.0 == d.0 {
            return true;
        }
    }
    false
}

/// Makes a level for the datatype, if it has none. On `NoMemory` inputs may have come in.
fn make_level(
    trees: &mut NamedTrees,
    circuit: &mut Circuit,
    table: &TypeTable,
    d: DataId,
) -> Result<(), NoMemory>
    requires fits { NamedFits table.now trees.old circuit.old }
    requires groups { AreGroups (field_table table.now) trees.old.groups }
    requires room { length circuit.old + 32 ≤ 2 ^ 30 }
    ensures levels { AddsLevels table.now trees.old circuit.old trees.new circuit.new 32 }
    ensures has { OnOk result (HasLevel trees.new.groups trees.new.levels d) }
{
    if is_first(trees.groups.as_slice(), d) {
        return Ok(());
    }
    if was_made(trees.levels.as_slice(), d) {
        return Ok(());
    }
    let digits = pp_bits::inputs(circuit, 32)?;
    let word = Word::from_lits(&digits);
    trees.levels.push(Level { of: d, word })?;
    Ok(())
}

/// Makes a level for the sort of a field, if that is a datatype of the group of `d`.
fn make_sort_level(
    trees: &mut NamedTrees,
    circuit: &mut Circuit,
    table: &TypeTable,
    d: DataId,
    sort: Sort,
) -> Result<(), NoMemory>
    requires fits { NamedFits table.now trees.old circuit.old }
    requires groups { AreGroups (field_table table.now) trees.old.groups }
    requires room { length circuit.old + level_gates sort ≤ 2 ^ 30 }
    ensures levels { AddsLevels table.now trees.old circuit.old trees.new circuit.new (level_gates sort) }
    ensures has { OnOk result (SortHasLevel trees.new.groups trees.new.levels d sort) }
{
    match sort {
        Sort::Int => {}
        Sort::Bool => {}
        Sort::Tree(e) => {
            if is_one_group(trees.groups.as_slice(), d, e) {
                make_level(trees, circuit, table, e)?;
            }
        }
    }
    Ok(())
}

/// Makes levels for those of these sorts that are datatypes of the group of `d`.
fn make_sort_levels(
    trees: &mut NamedTrees,
    circuit: &mut Circuit,
    table: &TypeTable,
    d: DataId,
    sorts: &[Sort],
) -> Result<(), NoMemory>
    requires fits { NamedFits table.now trees.old circuit.old }
    requires groups { AreGroups (field_table table.now) trees.old.groups }
    requires room { length circuit.old + total level_gates sorts.now ≤ 2 ^ 30 }
    ensures levels { AddsLevels table.now trees.old circuit.old trees.new circuit.new (total level_gates sorts.now) }
    ensures has { OnOk result (SortsHaveLevels trees.new.groups trees.new.levels d sorts.now) }
{
    for place in 0..sorts.len() {
        make_sort_level(trees, circuit, table, d, sorts[place])?;
    }
    Ok(())
}

/// Makes levels for the datatype and for those of its fields that are of its group, as far as they have none. On
/// `NoMemory` some of them may have come in.
pub fn make_levels(
    trees: &mut NamedTrees,
    circuit: &mut Circuit,
    table: &TypeTable,
    d: DataId,
) -> Result<(), NoMemory>
    requires fits { NamedFits table.now trees.old circuit.old }
    requires groups { AreGroups (field_table table.now) trees.old.groups }
    requires room { length circuit.old + levels_gates table.now d ≤ 2 ^ 30 }
    ensures levels { AddsLevels table.now trees.old circuit.old trees.new circuit.new (levels_gates table.now d) }
    ensures has { OnOk result (DataHasLevels table.now trees.new.groups trees.new.levels d) }
{
    make_level(trees, circuit, table, d)?;
    let ctors = ctors_of(table, d);
    for place in 0..ctors.len() {
        let sorts = ctors[place].fields.as_slice();
        make_sort_levels(trees, circuit, table, d, sorts)?;
    }
    Ok(())
}
