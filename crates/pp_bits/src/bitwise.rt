//! Operations digit by digit.

ghost use Rattle.std.specs.Prelude.{◌≡◌, ℕ, Bool, ◌+◌, ◌<◌, ◌≤◌, ◌^◌, All, length, IfOk};
ghost use Rattle.std.specs.Int.RustNames.{bit_and, bit_or, bit_xor};
ghost use Rattle.pp_clause.specs.Literal.{lit_value};
ghost use Rattle.pp_gate.specs.Circuit.{IsOf, StandsFor};
ghost use Rattle.pp_gate.specs.Growth.{AddsGates};
ghost use Rattle.pp_bits.specs.Bitwise.{bit_by, bits_by};
ghost use Rattle.pp_bits.specs.Number.{nat_of, StandsForNumber};

use crate::NoMemory;
use crate::choice::no_digits;
use pp_clause::Lit;
use pp_gate::Circuit;

/// What is done to each pair of digits.
#[derive(Clone, Copy)]
enum Bitwise {
    And,
    Or,
    Xor,
}

/// One digit of `by_digit`.
fn digit_by(circuit: &mut Circuit, op: Bitwise, a: Lit, b: Lit) -> Result<Lit, NoMemory>
    requires left { IsOf circuit.old a }
    requires right { IsOf circuit.old b }
    requires room { length circuit.old < 2 ^ 30 }
    ensures adds { AddsGates circuit.old circuit.new 1 }
    ensures stands { IfOk result (λ r. StandsFor circuit.new r (λ s. bit_by op (lit_value s a) (lit_value s b))) }
{
    match op {
        Bitwise::And => circuit.and(a, b),
        Bitwise::Or => circuit.or(a, b),
        Bitwise::Xor => circuit.xor(a, b),
    }
}

/// The same done to each pair of digits.
#[tactic(auto, using(crate::proofs::Growing::AddsGates_none))]
fn by_digit(circuit: &mut Circuit, op: Bitwise, a: &[Lit], b: &[Lit]) -> Result<Vec<Lit>, NoMemory>
    requires same { length a.now ≡ length b.now }
    requires left { All (IsOf circuit.old) a.now }
    requires right { All (IsOf circuit.old) b.now }
    requires room { length circuit.old + length a.now ≤ 2 ^ 30 }
    ensures adds { AddsGates circuit.old circuit.new (length a.now) }
    ensures stands { IfOk result (λ r. StandsForNumber circuit.new (length a.now) r.items
        (λ s. bits_by op (nat_of s a.now) (nat_of s b.now))) }
{
    let mut digits = no_digits(circuit, a.len())?;
    for i in 0..a.len() {
        let digit = digit_by(circuit, op, a[i], b[i])?;
        digits.push(digit)?;
    }
    Ok(digits)
}

/// Each digit is 1 where both are.
pub fn and(circuit: &mut Circuit, a: &[Lit], b: &[Lit]) -> Result<Vec<Lit>, NoMemory>
    requires same { length a.now ≡ length b.now }
    requires left { All (IsOf circuit.old) a.now }
    requires right { All (IsOf circuit.old) b.now }
    requires room { length circuit.old + length a.now ≤ 2 ^ 30 }
    ensures adds { AddsGates circuit.old circuit.new (length a.now) }
    ensures stands { IfOk result (λ r. StandsForNumber circuit.new (length a.now) r.items
        (λ s. bit_and (nat_of s a.now) (nat_of s b.now))) }
{
    let all = by_digit(circuit, Bitwise::And, a, b)?;
    Ok(all)
}

/// Each digit is 1 where at least one of the two is.
pub fn or(circuit: &mut Circuit, a: &[Lit], b: &[Lit]) -> Result<Vec<Lit>, NoMemory>
    requires same { length a.now ≡ length b.now }
    requires left { All (IsOf circuit.old) a.now }
    requires right { All (IsOf circuit.old) b.now }
    requires room { length circuit.old + length a.now ≤ 2 ^ 30 }
    ensures adds { AddsGates circuit.old circuit.new (length a.now) }
    ensures stands { IfOk result (λ r. StandsForNumber circuit.new (length a.now) r.items
        (λ s. bit_or (nat_of s a.now) (nat_of s b.now))) }
{
    let all = by_digit(circuit, Bitwise::Or, a, b)?;
    Ok(all)
}

/// Each digit is 1 where exactly one of the two is.
pub fn xor(circuit: &mut Circuit, a: &[Lit], b: &[Lit]) -> Result<Vec<Lit>, NoMemory>
    requires same { length a.now ≡ length b.now }
    requires left { All (IsOf circuit.old) a.now }
    requires right { All (IsOf circuit.old) b.now }
    requires room { length circuit.old + length a.now ≤ 2 ^ 30 }
    ensures adds { AddsGates circuit.old circuit.new (length a.now) }
    ensures stands { IfOk result (λ r. StandsForNumber circuit.new (length a.now) r.items
        (λ s. bit_xor (nat_of s a.now) (nat_of s b.now))) }
{
    let all = by_digit(circuit, Bitwise::Xor, a, b)?;
    Ok(all)
}
