//! Looks at the trees of the samples: their constructors and their fields.

ghost use Rattle.std.specs.Prelude.{◌≡◌, ◌≤◌, ◌<◌, IsTrue, IfOk, OnOk, Some, length, slice_get};
ghost use Rattle.pp_prog.specs.declared.types.Ctor.{Ctor as CtorSpec};
ghost use Rattle.pp_domain.specs.Answers.{IsCtorOf};
ghost use Rattle.pp_bounded_samples.specs.Kept.{CanLook, IsOfSort, IsPlaceIn, Looked};

use crate::NoMemory;
use crate::trees::room;
use pp_bounded::{Bounded, BoundedTree};
use pp_clause::Lit;
use pp_domain::{Domain, Symbol};
use pp_gate::Circuit;
use pp_list::at;
use pp_prog::{CtorId, DataId, TypeTable};

/// Whether the constructor is one of the datatype.
pub fn is_ctor_of(table: &TypeTable, ctor: CtorId, of: DataId) -> bool
    ensures { IsTrue result → IsCtorOf table.now ctor of }
{
    match at(table.ctors.as_slice(), ctor.0 as usize) {
        None => false,
        Some(entry) => entry.of.0 == of.0,
    }
}

/// How many fields the constructor has, at most.
pub fn field_count(table: &TypeTable, ctor: CtorId) -> u32
    ensures { (k : CtorSpec) → slice_get table.now.ctors ctor.0 ≡ Some k → result ≤ length k.fields }
{
    match at(table.ctors.as_slice(), ctor.0 as usize) {
        None => 0,
        Some(entry) => entry.fields.len().min(u32::MAX as usize) as u32,
    }
}

/// The literal that is true where the tree has the constructor.
pub fn ctor_literal(
    domain: &mut Bounded,
    circuit: &mut Circuit,
    table: &TypeTable,
    tree: &BoundedTree,
    ctor: CtorId,
) -> Result<Lit, NoMemory>
    requires { CanLook table.now domain.old circuit.old tree.now ctor }
    ensures { OnOk result (Looked table.now domain.old circuit.old domain.new circuit.new) }
{
    room(circuit)?;
    let lit = domain.is_ctor(circuit, table, tree, ctor)?;
    Ok(lit)
}

/// The field at a place of the constructor, as the tree may have it.
pub fn field(
    domain: &mut Bounded,
    circuit: &mut Circuit,
    table: &TypeTable,
    tree: &BoundedTree,
    ctor: CtorId,
    place: u32,
) -> Result<Symbol<BoundedTree>, NoMemory>
    requires look { CanLook table.now domain.old circuit.old tree.now ctor }
    requires place { IsPlaceIn table.now ctor place }
    ensures looked { OnOk result (Looked table.now domain.old circuit.old domain.new circuit.new) }
    ensures symbol { IfOk result (λ r. IsOfSort domain.new circuit.new r) }
{
    room(circuit)?;
    let symbol = domain.field(circuit, table, tree, ctor, place)?;
    Ok(symbol)
}
