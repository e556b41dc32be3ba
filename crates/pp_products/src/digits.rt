//! Digits put before, cut off and looked at.

ghost use Rattle.std.specs.Prelude.{◌≡◌, ℕ, Bool, ◌∷◌, ◌++◌, ◌%◌, ◌^◌, ◌+◌, ◌-◌, ◌≤◌, min, take, replicate, nat_le};
ghost use Rattle.std.specs.Prelude.{nat_lt, All, length, IfOk};
ghost use Rattle.pp_gate.specs.Circuit.{IsOf, StandsFor};
ghost use Rattle.pp_gate.specs.Growth.{AddsGates};
ghost use Rattle.pp_bits.specs.Number.{nat_of, StandsForNumber};

use crate::NoMemory;
use pp_clause::Lit;
use pp_gate::Circuit;
use std::alloc::Global;

/// The number whose lowest digit is `low` and whose other digits are those of `rest`.
pub(crate) fn over(alloc: Global, low: Lit, rest: &[Lit]) -> Result<Vec<Lit>, NoMemory>
    ensures { IfOk result (λ r. r.items ≡ low ∷ rest.now) }
{
    let mut all = Vec::with_capacity(alloc, rest.len() + 1)?;
    all.push(low)?;
    all.extend_from_slice(rest)?;
    Ok(all)
}

/// The lowest digits of a number, as many as `width`. It adds no gate.
pub(crate) fn resized(circuit: &Circuit, a: &[Lit], width: usize) -> Result<Vec<Lit>, NoMemory>
    requires { All (IsOf circuit.now) a.now }
    ensures { IfOk result (λ r. StandsForNumber circuit.now width r.items (λ s. nat_of s a.now % 2 ^ width)) }
{
    let zero = circuit.truth().negated();
    let digits = padded(circuit.allocator(), a, width, zero)?;
    Ok(digits)
}

/// The first `width` literals, with others after them where there are fewer.
fn padded(alloc: Global, a: &[Lit], width: usize, fill: Lit) -> Result<Vec<Lit>, NoMemory>
    ensures { IfOk result (λ r. r.items ≡ take (min (length a.now) width) a.now ++ replicate
        (width - min (length a.now) width) fill) }
{
    let mut digits = a[..a.len().min(width)].to_vec(alloc)?;
    digits.resize(width, fill)?;
    Ok(digits)
}

/// Whether some digit is 1.
fn some_digit(circuit: &mut Circuit, a: &[Lit]) -> Result<Lit, NoMemory>
    requires of { All (IsOf circuit.old) a.now }
    requires room { length circuit.old + length a.now ≤ 2 ^ 30 }
    ensures adds { AddsGates circuit.old circuit.new (length a.now) }
    ensures stands { IfOk result (λ r. StandsFor circuit.new r (λ s. nat_lt 0 (nat_of s a.now))) }
{
    if a.is_empty() {
        Ok(circuit.truth().negated())
    } else {
        // the highest digit first, so that two numbers with the same highest digits share their gates
        let above = some_digit(circuit, &a[1..])?;
        let some = circuit.or(a[0], above)?;
        Ok(some)
    }
}

/// Whether a number has a digit 1 past the lowest `width`.
pub(crate) fn exceeds(circuit: &mut Circuit, a: &[Lit], width: usize) -> Result<Lit, NoMemory>
    requires of { All (IsOf circuit.old) a.now }
    requires room { length circuit.old + length a.now ≤ 2 ^ 30 }
    ensures adds { AddsGates circuit.old circuit.new (length a.now) }
    ensures stands { IfOk result (λ r. StandsFor circuit.new r (λ s. nat_le (2 ^ width) (nat_of s a.now))) }
{
    let places = a.len().min(width);
    let some = some_digit(circuit, &a[places..])?;
    Ok(some)
}
