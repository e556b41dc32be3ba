//! The value for which a tree, or a field of it, stands under an assignment.

ghost use Rattle.std.specs.Prelude.{◌≡◌, OnOk};
ghost use Rattle.pp_clause.specs.Assignment.{assigned};
ghost use Rattle.pp_clause.specs.Literal.{lit_value};
ghost use Rattle.pp_domain.specs.Answers.{IsCtorOf};
ghost use Rattle.pp_bounded_samples.specs.Kept.{CanRead, IsPlaceIn, IsReadableWhere, Looked};

use crate::NoMemory;
use crate::trees::room;
use pp_bounded::{Bounded, BoundedTree};
use pp_clause::{Assignment, Lit};
use pp_domain::{Domain, Symbol};
use pp_gate::Circuit;
use pp_prog::{CtorId, TypeTable, Value};
use std::alloc::Global;

/// Whether the literal is true.
pub fn is_true(assignment: &Assignment, lit: Lit) -> bool
    ensures { result ≡ lit_value (assigned assignment.now) lit }
{
    assignment.value(lit.var()) == lit.is_positive()
}

/// The value for which the symbol stands; none where the domain's condition or this literal is false.
fn read_where(
    alloc: Global,
    domain: &Bounded,
    table: &TypeTable,
    assignment: &Assignment,
    condition: Lit,
    symbol: &Symbol<BoundedTree>,
) -> Result<Option<Value>, NoMemory>
    requires { IsReadableWhere table.now domain.now (assigned assignment.now) condition symbol.now }
{
    if !is_true(assignment, domain.ok()) {
        return Ok(None);
    }
    if !is_true(assignment, condition) {
        return Ok(None);
    }
    let value = domain.read(alloc, table, assignment, symbol)?;
    Ok(Some(value))
}

/// The value for which the tree stands under an assignment that gives each gate its value; none where the domain's
/// condition is false.
pub fn read(
    alloc: Global,
    domain: &Bounded,
    circuit: &Circuit,
    table: &TypeTable,
    assignment: &Assignment,
    tree: &BoundedTree,
) -> Result<Option<Value>, NoMemory>
    requires { CanRead table.now domain.now circuit.now (assigned assignment.now) tree.now }
{
    let symbol = Symbol::Tree(*tree);
    let value = read_where(alloc, domain, table, assignment, circuit.truth(), &symbol)?;
    Ok(value)
}

/// The value for which the field at a place of the constructor stands; none where the tree has another constructor, or
/// the domain's condition is false.
pub fn read_field(
    alloc: Global,
    domain: &mut Bounded,
    circuit: &mut Circuit,
    table: &TypeTable,
    assignment: &Assignment,
    tree: &BoundedTree,
    ctor: CtorId,
    place: u32,
) -> Result<Option<Value>, NoMemory>
    requires read { CanRead table.now domain.old circuit.old (assigned assignment.now) tree.now }
    requires ctor { IsCtorOf table.now ctor tree.now.of }
    requires place { IsPlaceIn table.now ctor place }
    ensures { OnOk result (Looked table.now domain.old circuit.old domain.new circuit.new) }
{
    room(circuit)?;
    let has_ctor = domain.is_ctor(circuit, table, tree, ctor)?;
    room(circuit)?;
    let symbol = domain.field(circuit, table, tree, ctor, place)?;
    let value = read_where(alloc, domain, table, assignment, has_ctor, &symbol)?;
    Ok(value)
}
