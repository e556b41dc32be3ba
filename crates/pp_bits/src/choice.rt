//! Constants, negated digits and choices.

ghost use Rattle.std.specs.Prelude.{◌≡◌, ℕ, Bool, true, ◌+◌, ◌-◌, ◌*◌, ◌%◌, ◌^◌, ◌≤◌, ◌==◌, ◌&&◌, not, if◌then◌else◌};
ghost use Rattle.std.specs.Prelude.{All, length, List, [], IfOk};
ghost use Rattle.pp_clause.specs.Literal.{lit_value};
ghost use Rattle.pp_gate.specs.declared.gate.Gate.{Gate};
ghost use Rattle.pp_gate.specs.Circuit.{IsOf, IsCircuit, StandsFor};
ghost use Rattle.pp_gate.specs.Growth.{AddsGates};
ghost use Rattle.pp_bits.specs.Number.{nat_of, StandsForNumber};

use crate::NoMemory;
use pp_clause::Lit;
use pp_gate::Circuit;

/// A list without literals, in the circuit's memory, with room for as many as `width`.
pub(crate) fn no_digits(circuit: &Circuit, width: usize) -> Result<Vec<Lit>, NoMemory>
    ensures items { IfOk result (λ r. r.items ≡ []) }
    ensures circuit { IsCircuit circuit.now }
{
    let digits = Vec::with_capacity(circuit.allocator(), width)?;
    Ok(digits)
}

/// The literal that has this value, where `truth` is true.
fn known(truth: Lit, value: bool) -> Lit
    ensures of { (gs : List Gate) → IsOf gs truth → IsOf gs result }
    ensures value { (s : ℕ → Bool) → lit_value s truth ≡ true → lit_value s result ≡ value }
{
    if value { truth } else { truth.negated() }
}

/// The lowest digits of a number, as many as `width`. It adds no gate.
pub fn constant(circuit: &Circuit, value: u64, width: usize) -> Result<Vec<Lit>, NoMemory>
    ensures stands { IfOk result (λ r. StandsForNumber circuit.now width r.items (λ s. value % 2 ^ width)) }
    ensures circuit { IsCircuit circuit.now }
{
    let truth = circuit.truth();
    let mut digits = no_digits(circuit, width)?;
    let mut rest = value;
    for _place in 0..width {
        let digit = known(truth, rest % 2 == 1);
        digits.push(digit)?;
        rest /= 2;
    }
    Ok(digits)
}

/// Each digit negated. It adds no gate.
pub fn invert(circuit: &Circuit, a: &[Lit]) -> Result<Vec<Lit>, NoMemory>
    requires { All (IsOf circuit.now) a.now }
    ensures stands { IfOk result (λ r. StandsForNumber circuit.now (length a.now) r.items
        (λ s. 2 ^ length a.now - 1 - nat_of s a.now)) }
    ensures circuit { IsCircuit circuit.now }
{
    let mut digits = no_digits(circuit, a.len())?;
    for i in 0..a.len() {
        let digit = a[i].negated();
        digits.push(digit)?;
    }
    Ok(digits)
}

/// `a` where the choice is true, and else `b`.
#[tactic(auto, using(crate::proofs::Growing::AddsGates_none))]
pub fn choose(
    circuit: &mut Circuit,
    choice: Lit,
    a: &[Lit],
    b: &[Lit],
) -> Result<Vec<Lit>, NoMemory>
    requires same { length a.now ≡ length b.now }
    requires choice { IsOf circuit.old choice }
    requires left { All (IsOf circuit.old) a.now }
    requires right { All (IsOf circuit.old) b.now }
    requires room { length circuit.old + length a.now ≤ 2 ^ 30 }
    ensures adds { AddsGates circuit.old circuit.new (length a.now) }
    ensures stands { IfOk result (λ r. StandsForNumber circuit.new (length a.now) r.items
        (λ s. if lit_value s choice then nat_of s a.now else nat_of s b.now)) }
{
    let mut digits = no_digits(circuit, a.len())?;
    for i in 0..a.len() {
        let digit = circuit.mux(choice, a[i], b[i])?;
        digits.push(digit)?;
    }
    Ok(digits)
}
