//! Products.

ghost use Rattle.std.specs.Prelude.{◌≡◌, ℕ, Bool, ◌+◌, ◌*◌, ◌%◌, ◌^◌, ◌≤◌, All, length, IfOk};
ghost use Rattle.pp_gate.specs.Circuit.{IsOf, Gives};
ghost use Rattle.pp_gate.specs.Growth.{AddsGates};
ghost use Rattle.pp_bits.specs.Number.{nat_of, lit_bit, StandsForNumber};

use crate::NoMemory;
use crate::digits::over;
use pp_bits::{add, choose, constant};
use pp_clause::Lit;
use pp_gate::Circuit;

/// `low * a + 2 * rest`, as many digits of it as `a` has: the row of one digit over the sum of those above it.
fn row(circuit: &mut Circuit, a: &[Lit], low: Lit, rest: &[Lit]) -> Result<Vec<Lit>, NoMemory>
    requires same { length a.now ≡ length rest.now + 1 }
    requires left { All (IsOf circuit.old) a.now }
    requires low { IsOf circuit.old low }
    requires rest { All (IsOf circuit.old) rest.now }
    requires room { length circuit.old + 4 * length a.now ≤ 2 ^ 30 }
    ensures adds { AddsGates circuit.old circuit.new (4 * length a.now) }
    ensures len { IfOk result (λ r. length r.items ≡ length a.now) }
    ensures of { IfOk result (λ r. All (IsOf circuit.new) r.items) }
    ensures value { IfOk result (λ r. (s : ℕ → Bool) → Gives s circuit.new → nat_of s r.items
        ≡ (lit_bit s low * nat_of s a.now + 2 * nat_of s rest.now) % 2 ^ length a.now) }
{
    let zeros = constant(circuit, 0, a.len())?;
    let masked = choose(circuit, low, a, &zeros)?;
    let high = add(circuit, &masked[1..], rest)?;
    let all = over(circuit.allocator(), masked[0], &high)?;
    Ok(all)
}

/// The product, as many digits of it as `a` has. Which factor comes first makes no difference to the gates.
///
/// By rows, each shorter than the one before. On `NoMemory` the old gates stand, and some of the new ones may.
pub fn mul(circuit: &mut Circuit, a: &[Lit], b: &[Lit]) -> Result<Vec<Lit>, NoMemory>
    requires same { length a.now ≡ length b.now }
    requires left { All (IsOf circuit.old) a.now }
    requires right { All (IsOf circuit.old) b.now }
    requires room { length circuit.old + 2 * (length a.now * (length a.now + 1)) ≤ 2 ^ 30 }
    ensures adds { AddsGates circuit.old circuit.new (2 * (length a.now * (length a.now + 1))) }
    ensures stands { IfOk result (λ r. StandsForNumber circuit.new (length a.now) r.items
        (λ s. (nat_of s a.now * nat_of s b.now) % 2 ^ length a.now)) }
{
    // the rows are those of the second factor: a constant has fewest
    if comes_before(a, b) {
        let all = rows(circuit, b, a)?;
        Ok(all)
    } else {
        let all = rows(circuit, a, b)?;
        Ok(all)
    }
}

/// Whether `a` comes first. That is so where it has the earlier variable at the first place where the variables differ,
/// so a number that is wholly constant comes before others; of two with the same variables the signs decide.
fn comes_before(a: &[Lit], b: &[Lit]) -> bool
    requires { length a.now ≡ length b.now }
{
    for i in 0..a.len() {
        if a[i].var() != b[i].var() {
            return a[i].var() < b[i].var();
        }
    }
    for i in 0..a.len() {
        if a[i] != b[i] {
            return a[i].is_positive();
        }
    }
    false
}

/// The product by rows of `b`, as many digits of it as `a` has.
fn rows(circuit: &mut Circuit, a: &[Lit], b: &[Lit]) -> Result<Vec<Lit>, NoMemory>
    requires same { length a.now ≡ length b.now }
    requires left { All (IsOf circuit.old) a.now }
    requires right { All (IsOf circuit.old) b.now }
    requires room { length circuit.old + 2 * (length a.now * (length a.now + 1)) ≤ 2 ^ 30 }
    ensures adds { AddsGates circuit.old circuit.new (2 * (length a.now * (length a.now + 1))) }
    ensures stands { IfOk result (λ r. StandsForNumber circuit.new (length a.now) r.items
        (λ s. (nat_of s a.now * nat_of s b.now) % 2 ^ length a.now)) }
{
    if a.is_empty() {
        let none = constant(circuit, 0, a.len())?;
        Ok(none)
    } else {
        // what the highest digit of `a` adds to a row lies above the digits that are asked for
        let rest = rows(circuit, &a[..a.len() - 1], &b[1..])?;
        let all = row(circuit, a, b[0], &rest)?;
        Ok(all)
    }
}
