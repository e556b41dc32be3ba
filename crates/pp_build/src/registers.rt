//! Registers, and literals that stand for truth values.

ghost use Rattle.std.specs.Prelude.{◌≡◌, ◌<◌, Some, length, slice_get, IfOk};
ghost use Rattle.pp_gate.specs.Circuit.{StandsFor};
ghost use Rattle.pp_steps.specs.Reads.{Below};
ghost use Rattle.pp_build.specs.Registers.{AreAt, IsLiteralAt};

use crate::NoMemory;
use pp_clause::Lit;
use pp_domain::{Symbol, Symbols};
use pp_gate::Circuit;
use pp_list::Items;
use std::alloc::Global;

/// The register with this number.
pub(crate) fn register<T: Copy>(registers: &Symbols<T>, number: u32) -> Symbol<T>
    requires { number < length registers.now }
    ensures { slice_get registers.now number ≡ Some result }
{
    registers.as_slice()[number as usize]
}

/// The registers with these numbers.
pub(crate) fn at_all<T: Copy>(
    alloc: Global,
    registers: &Symbols<T>,
    numbers: &[u32],
) -> Result<Symbols<T>, NoMemory>
    requires { Below (length registers.now) numbers.now }
    ensures { IfOk result (λ xs. AreAt registers.now numbers.now xs) }
{
    let mut symbols = Items::new(alloc);
    for number in numbers {
        symbols.push(register(registers, *number))?;
    }
    Ok(symbols)
}

/// The literal of the register with this number, which is a truth value's.
pub(crate) fn literal<T: Copy>(circuit: &Circuit, registers: &Symbols<T>, number: u32) -> Lit
    requires { number < length registers.now }
    ensures { IsLiteralAt registers.now number result }
{
    match register(registers, number) {
        Symbol::Bit(bit) => bit,
        _ => circuit.truth(),
    }
}

/// The literal of a truth value.
pub(crate) fn constant(circuit: &Circuit, value: bool) -> Lit
    ensures { StandsFor circuit.now result (λ s. value) }
{
    if value {
        circuit.truth()
    } else {
        circuit.truth().negated()
    }
}
