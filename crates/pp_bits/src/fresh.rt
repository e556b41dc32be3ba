//! Fresh inputs, and the number that literals stand for under an assignment.

ghost use Rattle.std.specs.Prelude.{◌≡◌, ℕ, Bool, ◌+◌, ◌^◌, ◌<◌, ◌≤◌, length, IfOk};
ghost use Rattle.pp_clause.specs.Assignment.{assigned};
ghost use Rattle.pp_gate.specs.Circuit.{IsCircuit, Gives};
ghost use Rattle.pp_gate.specs.Growth.{Grows};
ghost use Rattle.pp_bits.specs.Number.{nat_of, lit_bit};
ghost use Rattle.pp_bits.specs.Inputs.{AreInputs, ChosenNumber};

use crate::NoMemory;
use crate::choice::no_digits;
use pp_clause::{Assignment, Lit};
use pp_gate::Circuit;

/// New inputs, as many as `width`, which can be chosen so that they stand for each number of so many digits.
///
/// On `NoMemory` the old gates stand, and some of the inputs may.
pub fn inputs(circuit: &mut Circuit, width: usize) -> Result<Vec<Lit>, NoMemory>
    requires { length circuit.old + width ≤ 2 ^ 30 }
    ensures grows { Grows circuit.old circuit.new width }
    ensures circuit { IsCircuit circuit.new }
    ensures inputs { IfOk result (λ r. AreInputs circuit.old circuit.new width r.items) }
    ensures chosen { IfOk result (λ r. (s : ℕ → Bool) → Gives s circuit.old → (v : ℕ) → v < 2 ^ width
        → ChosenNumber circuit.old circuit.new s r.items v) }
{
    let mut digits = no_digits(circuit, width)?;
    for _place in 0..width {
        let digit = circuit.input()?;
        digits.push(digit)?;
    }
    Ok(digits)
}

/// The natural number for which the literals stand under an assignment.
pub fn number(assignment: &Assignment, digits: &[Lit]) -> u64
    requires { length digits.now ≤ 64 }
    ensures value { result ≡ nat_of (assigned assignment.now) digits.now }
    ensures small { result < 2 ^ length digits.now }
{
    if digits.is_empty() {
        0
    } else {
        let above = number(assignment, &digits[1..]);
        digit_of(assignment, digits[0]) + 2 * above
    }
}

/// 1 where the literal is true under the assignment, and else 0.
fn digit_of(assignment: &Assignment, lit: Lit) -> u64
    ensures value { result ≡ lit_bit (assigned assignment.now) lit }
    ensures small { result ≤ 1 }
{
    u64::from(assignment.value(lit.var()) == lit.is_positive())
}
