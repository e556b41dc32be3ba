//! The choice between two registers.

ghost use Rattle.std.specs.Prelude.{◌≡◌, true, IfOk};
ghost use Rattle.pp_steps.specs.declared.step.Step.TheVariants as steps;
ghost use Rattle.pp_build.specs.Performed.{CanPerform, Leaves, Performs};
ghost use Rattle.pp_build.specs.Words.{KeepsDomain};

use crate::NoMemory;
use crate::registers::{literal, register};
use pp_domain::{Domain, Symbol, Symbols};
use pp_gate::Circuit;
use pp_prog::TypeTable;

/// The second register where the first is true, and else the third.
pub(crate) fn choose<D: Domain>(
    domain: &mut D,
    circuit: &mut Circuit,
    table: &TypeTable,
    registers: &Symbols<D::Tree>,
    choice: u32,
    left: u32,
    right: u32,
) -> Result<Symbol<D::Tree>, NoMemory>
    requires fits { D.sense.Fits table.now domain.old circuit.old }
    requires can { CanPerform D.sense table.now domain.old circuit.old registers.now (steps.Choose choice left right) }
    ensures moves { Leaves D.sense table.now domain.old circuit.old registers.now (steps.Choose choice left right)
        domain.new circuit.new }
    ensures words { KeepsDomain D.sense table.now domain.old circuit.old registers.now (steps.Choose choice left right)
        domain.new }
    ensures performs { IfOk result (λ r. Performs D.sense table.now domain.old circuit.old registers.now
        (steps.Choose choice left right) domain.new circuit.new r) }
{
    let choice = literal(circuit, registers, choice);
    let left = register(registers, left);
    let right = register(registers, right);
    let chosen = pp_domain::choose(domain, circuit, table, choice, &left, &right)?;
    Ok(chosen)
}
