//! The fields of a tree are compared with another tree, and put on the list of those to go on from.

ghost use Rattle.std.specs.Prelude.{◌≡◌, ◌+◌, ◌*◌, ◌^◌, ◌≤◌, [], ◌∷◌, length, IfOk, OnOk};
ghost use Rattle.pp_gate.specs.Circuit.{IsCircuit, IsOf};
ghost use Rattle.pp_gate.specs.Growth.{AddsGates};
ghost use Rattle.pp_named_trees.specs.Arena.{IsName};
ghost use Rattle.pp_named_below.specs.declared.search.TheConstants.{FIELD_GATES as field_gates};
ghost use Rattle.pp_named_below.specs.Search.{AreTaken, HaveNames, IsSameOr, IsTaken, IsTreeField, Spends};

use crate::NoMemory;
use crate::fields::TreeField;
use pp_clause::Lit;
use pp_gate::Circuit;
use pp_list::Items;
use pp_named_trees::NamedTree;

/// How many gates a field may add: 64 for the comparison of two names, one for its path, and two more.
pub const FIELD_GATES: usize = 67;

/// A tree to go on from.
#[derive(Clone, Copy)]
pub struct Visit {
    /// The tree.
    pub tree: NamedTree,
    /// The constructors on the way to it, all together: true only where the tree is reached.
    pub path: Lit,
}

/// How far a search has come.
#[derive(Drop)]
pub struct Search {
    /// The trees that were reached, in that order.
    pub visits: Items<Visit>,
    /// True where a field that was taken up is reached and is the tree that is looked for.
    pub any: Lit,
    /// How many fields more may be taken up.
    pub left: usize,
}

/// Whether `any` is true, or the path is and the field is the same tree as `new`. On `NoMemory` gates may have come in.
fn or_same(
    circuit: &mut Circuit,
    new: &NamedTree,
    field: &NamedTree,
    path: Lit,
    any: Lit,
) -> Result<Lit, NoMemory>
    requires circuit { IsCircuit circuit.old }
    requires new { IsName circuit.old new.now.name }
    requires field { IsName circuit.old field.now.name }
    requires path { IsOf circuit.old path }
    requires any { IsOf circuit.old any }
    requires room { length circuit.old + 66 ≤ 2 ^ 30 }
    ensures adds { AddsGates circuit.old circuit.new 66 }
    ensures same { IfOk result (λ l. IsSameOr circuit.new new.now field.now path any l) }
{
    if field.of.0 != new.of.0 {
        return Ok(any);
    }
    let same = pp_bits::equal(circuit, field.name.lits(), new.name.lits())?;
    let here = circuit.and(path, same)?;
    let more = circuit.or(any, here)?;
    Ok(more)
}

/// Takes up a field of a tree with this path: compares it with `new` and puts it on the list. It is left out where no
/// field is left to be taken up, or its constructor is never there. On `NoMemory` gates may have come in, and a field
/// fewer is left.
fn take_field(
    search: &mut Search,
    circuit: &mut Circuit,
    new: &NamedTree,
    path: Lit,
    field: &TreeField,
) -> Result<(), NoMemory>
    requires circuit { IsCircuit circuit.old }
    requires new { IsName circuit.old new.now.name }
    requires path { IsOf circuit.old path }
    requires field { IsTreeField circuit.old field.now }
    requires any { IsOf circuit.old search.old.any }
    requires room { length circuit.old + field_gates * search.old.left ≤ 2 ^ 30 }
    ensures spends { Spends circuit.old circuit.new search.old search.new }
    ensures taken { OnOk result (IsTaken circuit.new new.now path field.now search.old search.new) }
{
    if search.left == 0 {
        return Ok(());
    }
    if field.lit == circuit.truth().negated() {
        return Ok(());
    }
    search.left -= 1;
    let path = circuit.and(path, field.lit)?;
    let any = or_same(circuit, new, &field.tree, path, search.any)?;
    let tree = field.tree;
    search.visits.push(Visit { tree, path })?;
    search.any = any;
    Ok(())
}

/// Takes up the fields of a tree with this path, as many as are left. On `NoMemory` some of them were taken up.
pub fn take_fields(
    search: &mut Search,
    circuit: &mut Circuit,
    new: &NamedTree,
    path: Lit,
    fields: &[TreeField],
) -> Result<(), NoMemory>
    requires circuit { IsCircuit circuit.old }
    requires new { IsName circuit.old new.now.name }
    requires path { IsOf circuit.old path }
    requires fields { HaveNames circuit.old fields.now }
    requires any { IsOf circuit.old search.old.any }
    requires room { length circuit.old + field_gates * search.old.left ≤ 2 ^ 30 }
    ensures spends { Spends circuit.old circuit.new search.old search.new }
    ensures taken { OnOk result (AreTaken circuit.new new.now path fields.now search.old search.new) }
{
    for place in 0..fields.len() {
        take_field(search, circuit, new, path, &fields[place])?;
    }
    Ok(())
}
