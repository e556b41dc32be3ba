//! Moves by a distance that is known, which take no gates.

ghost use Rattle.std.specs.Prelude.{◌≡◌, ◌-◌, ◌^◌, ℕ, Bool, ◌++◌, All, length, take, drop, replicate, min, nat_le};
ghost use Rattle.std.specs.Prelude.{IfOk};
ghost use Rattle.pp_clause.specs.Literal.{lit_value};
ghost use Rattle.pp_gate.specs.Circuit.{IsOf, IsCircuit, Gives};
ghost use Rattle.pp_bits.specs.Number.{nat_of};

use crate::NoMemory;
use pp_clause::Lit;
use pp_gate::Circuit;

/// The same literals, in the circuit's memory.
pub(crate) fn copied(circuit: &Circuit, a: &[Lit]) -> Result<Vec<Lit>, NoMemory>
    ensures value { IfOk result (λ r. r.items ≡ a.now) }
    ensures circuit { IsCircuit circuit.now }
{
    let mut digits = Vec::with_capacity(circuit.allocator(), a.len())?;
    digits.extend_from_slice(a)?;
    Ok(digits)
}

/// The literals moved to the left by a number of places, each of which is filled.
pub(crate) fn raised(
    circuit: &Circuit,
    a: &[Lit],
    by: usize,
    fill: Lit,
) -> Result<Vec<Lit>, NoMemory>
    ensures value { IfOk result (λ r. r.items ≡ replicate (min by (length a.now)) fill ++ take
        (length a.now - min by (length a.now)) a.now) }
    ensures circuit { IsCircuit circuit.now }
{
    let places = by.min(a.len());
    let mut digits = vec![in circuit.allocator(); fill; places]?;
    digits.extend_from_slice(&a[..a.len() - places])?;
    Ok(digits)
}

/// The literals moved to the right by a number of places, each of which is filled.
pub(crate) fn lowered(
    circuit: &Circuit,
    a: &[Lit],
    by: usize,
    fill: Lit,
) -> Result<Vec<Lit>, NoMemory>
    ensures value { IfOk result (λ r. r.items ≡ drop (min by (length a.now)) a.now ++ replicate (min by (length a.now))
        fill) }
    ensures circuit { IsCircuit circuit.now }
{
    let places = by.min(a.len());
    let mut digits = a[places..].to_vec(circuit.allocator())?;
    digits.resize(a.len(), fill)?;
    Ok(digits)
}

/// The sign of a number in two's complement: its highest digit, and false where it has no digits.
pub fn sign(circuit: &Circuit, a: &[Lit]) -> Lit
    requires { All (IsOf circuit.now) a.now }
    ensures of { IsOf circuit.now result }
    ensures value { (s : ℕ → Bool) → Gives s circuit.now → lit_value s result
        ≡ nat_le (2 ^ (length a.now - 1)) (nat_of s a.now) }
    ensures circuit { IsCircuit circuit.now }
{
    let zero = circuit.truth().negated();
    if a.is_empty() { zero } else { a[a.len() - 1] }
}
