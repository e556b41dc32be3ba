//! The groups of datatypes that hold each other.

ghost use Rattle.std.specs.Prelude.{OnOk};
ghost use Rattle.pp_checks.specs.Tables.{field_table};
ghost use Rattle.pp_graph.specs.Reaches.{AreGroups};
ghost use Rattle.pp_named_trees.specs.Meaning.{NamedFits};
ghost use Rattle.pp_named_expand.specs.Touched.{IsTouched};

use crate::NoMemory;
use pp_checks::field_table;
use pp_gate::Circuit;
use pp_graph::groups_of;
use pp_named_trees::NamedTrees;
use pp_prog::TypeTable;

/// Works out the groups of datatypes, before the first look. On `NoMemory` nothing has changed.
pub fn touch(trees: &mut NamedTrees, circuit: &Circuit, table: &TypeTable) -> Result<(), NoMemory>
    requires fits { NamedFits table.now trees.old circuit.now }
    ensures touched { IsTouched table.now trees.old circuit.now trees.new }
    ensures groups { OnOk result (AreGroups (field_table table.now) trees.new.groups) }
{
    if trees.groups.is_empty() {
        let alloc = circuit.allocator();
        let fields = field_table(alloc, table)?;
        let groups = groups_of(alloc, fields.as_slice())?;
        trees.groups = groups;
    }
    Ok(())
}
