//! Steps on trees: constructors, and what is read of them.

ghost use Rattle.std.specs.Prelude.{◌≡◌, true, IfOk};
ghost use Rattle.pp_steps.specs.declared.step.Step.TheVariants as steps;
ghost use Rattle.pp_build.specs.Performed.{CanPerform, Leaves, Performs};

use crate::NoMemory;
use crate::registers::{at_all, register};
use pp_domain::{Domain, Symbol, Symbols};
use pp_gate::Circuit;
use pp_prog::{CtorId, TypeTable};
use std::alloc::Global;

/// The constructor with the registers of these numbers as its fields.
pub(crate) fn construct<D: Domain>(
    alloc: Global,
    domain: &mut D,
    circuit: &mut Circuit,
    table: &TypeTable,
    registers: &Symbols<D::Tree>,
    ctor: CtorId,
    fields: &[u32],
) -> Result<Symbol<D::Tree>, NoMemory>
    requires fits { D.sense.Fits table.now domain.old circuit.old }
    requires can { CanPerform D.sense table.now domain.old circuit.old registers.now
        (steps.Construct ctor fields.now) }
    ensures moves { Leaves D.sense table.now domain.old circuit.old registers.now (steps.Construct ctor fields.now)
        domain.new circuit.new }
    ensures performs { IfOk result (λ r. Performs D.sense table.now domain.old circuit.old registers.now
        (steps.Construct ctor fields.now) domain.new circuit.new r) }
{
    let symbols = at_all(alloc, registers, fields)?;
    let tree = domain.construct(circuit, table, ctor, &symbols)?;
    Ok(Symbol::Tree(tree))
}

/// Whether the register's value has the constructor.
pub(crate) fn has_ctor<D: Domain>(
    domain: &mut D,
    circuit: &mut Circuit,
    table: &TypeTable,
    registers: &Symbols<D::Tree>,
    ctor: CtorId,
    count: u32,
    operand: u32,
) -> Result<Symbol<D::Tree>, NoMemory>
    requires fits { D.sense.Fits table.now domain.old circuit.old }
    requires can { CanPerform D.sense table.now domain.old circuit.old registers.now
        (steps.IsCtor ctor count operand) }
    ensures moves { Leaves D.sense table.now domain.old circuit.old registers.now (steps.IsCtor ctor count operand)
        domain.new circuit.new }
    ensures performs { IfOk result (λ r. Performs D.sense table.now domain.old circuit.old registers.now
        (steps.IsCtor ctor count operand) domain.new circuit.new r) }
{
    match register(registers, operand) {
        Symbol::Tree(tree) => {
            let has = domain.is_ctor(circuit, table, &tree, ctor)?;
            Ok(Symbol::Bit(has))
        }
        other => Ok(other),
    }
}

/// The field at the place, of a register whose value has the constructor.
pub(crate) fn ctor_field<D: Domain>(
    domain: &mut D,
    circuit: &mut Circuit,
    table: &TypeTable,
    registers: &Symbols<D::Tree>,
    ctor: CtorId,
    place: u32,
    operand: u32,
) -> Result<Symbol<D::Tree>, NoMemory>
    requires fits { D.sense.Fits table.now domain.old circuit.old }
    requires can { CanPerform D.sense table.now domain.old circuit.old registers.now
        (steps.CtorField ctor place operand) }
    ensures moves { Leaves D.sense table.now domain.old circuit.old registers.now
        (steps.CtorField ctor place operand) domain.new circuit.new }
    ensures performs { IfOk result (λ r. Performs D.sense table.now domain.old circuit.old registers.now
        (steps.CtorField ctor place operand) domain.new circuit.new r) }
{
    match register(registers, operand) {
        Symbol::Tree(tree) => {
            let field = domain.field(circuit, table, &tree, ctor, place)?;
            Ok(field)
        }
        other => Ok(other),
    }
}

/// The field at the place, of a register whose datatype has one constructor.
pub(crate) fn only_field<D: Domain>(
    domain: &mut D,
    circuit: &mut Circuit,
    table: &TypeTable,
    registers: &Symbols<D::Tree>,
    operand: u32,
    place: u32,
) -> Result<Symbol<D::Tree>, NoMemory>
    requires fits { D.sense.Fits table.now domain.old circuit.old }
    requires can { CanPerform D.sense table.now domain.old circuit.old registers.now (steps.Field operand place) }
    ensures moves { Leaves D.sense table.now domain.old circuit.old registers.now (steps.Field operand place)
        domain.new circuit.new }
    ensures performs { IfOk result (λ r. Performs D.sense table.now domain.old circuit.old registers.now
        (steps.Field operand place) domain.new circuit.new r) }
{
    match register(registers, operand) {
        Symbol::Tree(tree) => {
            let only = table.datatype(domain.data_of(&tree)).first;
            let field = domain.field(circuit, table, &tree, only, place)?;
            Ok(field)
        }
        other => Ok(other),
    }
}
