//! Shifts, stage by stage.

ghost use Rattle.std.specs.Prelude.{◌≡◌, ℕ, Bool, ◌+◌, ◌*◌, ◌/◌, ◌%◌, ◌^◌, ◌≤◌, All, length, IfOk, false};
ghost use Rattle.std.specs.Int.{int_shr};
ghost use Rattle.pp_clause.specs.Literal.{lit_value};
ghost use Rattle.pp_gate.specs.Circuit.{IsOf, Gives};
ghost use Rattle.pp_gate.specs.Growth.{AddsGates};
ghost use Rattle.pp_bits.specs.Number.{lit_bit, nat_of, signed_of, StandsForNumber};
ghost use Rattle.pp_shifts.specs.Shift.{moved_right};

use crate::NoMemory;
use crate::moves::{copied, lowered, raised, sign};
use pp_bits::choose;
use pp_clause::Lit;
use pp_gate::Circuit;

/// `a` shifted to the left by the distance, which is any number: zeros come in, and the digits that leave on the left
/// are lost. A gate at most for each digit of `a` and each of the distance.
///
/// On `NoMemory` the old gates stand, and some new ones may be left.
pub fn shl(circuit: &mut Circuit, a: &[Lit], distance: &[Lit]) -> Result<Vec<Lit>, NoMemory>
    requires number { All (IsOf circuit.old) a.now }
    requires distance { All (IsOf circuit.old) distance.now }
    requires room { length circuit.old + length a.now * length distance.now ≤ 2 ^ 30 }
    ensures adds { AddsGates circuit.old circuit.new (length a.now * length distance.now) }
    ensures stands { IfOk result (λ r. StandsForNumber circuit.new (length a.now) r.items
        (λ s. (nat_of s a.now * 2 ^ nat_of s distance.now) % 2 ^ length a.now)) }
{
    let zero = circuit.truth().negated();
    let mut digits = copied(circuit, a)?;
    let mut by = 1;
    for i in 0..distance.len() {
        digits = left_stage(circuit, &digits, by, distance[i], zero)?;
        by = by.saturating_mul(2);
    }
    Ok(digits)
}

/// `a` shifted to the right by the distance, which is any number: zeros come in, and the digits that leave on the right
/// are lost. A gate at most for each digit of `a` and each of the distance.
///
/// On `NoMemory` the old gates stand, and some new ones may be left.
pub fn ushr(circuit: &mut Circuit, a: &[Lit], distance: &[Lit]) -> Result<Vec<Lit>, NoMemory>
    requires number { All (IsOf circuit.old) a.now }
    requires distance { All (IsOf circuit.old) distance.now }
    requires room { length circuit.old + length a.now * length distance.now ≤ 2 ^ 30 }
    ensures adds { AddsGates circuit.old circuit.new (length a.now * length distance.now) }
    ensures stands { IfOk result (λ r. StandsForNumber circuit.new (length a.now) r.items
        (λ s. nat_of s a.now / 2 ^ nat_of s distance.now)) }
{
    let zero = circuit.truth().negated();
    right(circuit, a, distance, zero)
}

/// `a` shifted to the right by the distance, which is any number: copies of its sign come in, so that the integer in
/// two's complement is the floor of the quotient by the power of 2. A gate at most for each digit of `a` and each of
/// the distance.
///
/// On `NoMemory` the old gates stand, and some new ones may be left.
pub fn shr(circuit: &mut Circuit, a: &[Lit], distance: &[Lit]) -> Result<Vec<Lit>, NoMemory>
    requires number { All (IsOf circuit.old) a.now }
    requires distance { All (IsOf circuit.old) distance.now }
    requires room { length circuit.old + length a.now * length distance.now ≤ 2 ^ 30 }
    ensures adds { AddsGates circuit.old circuit.new (length a.now * length distance.now) }
    ensures len { IfOk result (λ r. length r.items ≡ length a.now) }
    ensures of { IfOk result (λ r. All (IsOf circuit.new) r.items) }
    ensures value { IfOk result (λ r. (s : ℕ → Bool) → Gives s circuit.new → signed_of (length a.now) (nat_of s r.items)
        ≡ int_shr (signed_of (length a.now) (nat_of s a.now)) (nat_of s distance.now)) }
{
    let sign = sign(circuit, a);
    let digits = right(circuit, a, distance, sign)?;
    Ok(digits)
}

/// `a` shifted to the right by the distance: the places on the left are filled.
fn right(
    circuit: &mut Circuit,
    a: &[Lit],
    distance: &[Lit],
    fill: Lit,
) -> Result<Vec<Lit>, NoMemory>
    requires number { All (IsOf circuit.old) a.now }
    requires distance { All (IsOf circuit.old) distance.now }
    requires fill { IsOf circuit.old fill }
    requires room { length circuit.old + length a.now * length distance.now ≤ 2 ^ 30 }
    ensures adds { AddsGates circuit.old circuit.new (length a.now * length distance.now) }
    ensures stands { IfOk result (λ r. StandsForNumber circuit.new (length a.now) r.items
        (λ s. moved_right (length a.now) (lit_value s fill) (nat_of s a.now) (nat_of s distance.now))) }
{
    let mut digits = copied(circuit, a)?;
    let mut by = 1;
    for i in 0..distance.len() {
        digits = right_stage(circuit, &digits, by, distance[i], fill)?;
        by = by.saturating_mul(2);
    }
    Ok(digits)
}

/// The digits shifted to the left by some places where the choice is true, and else as they are.
fn left_stage(
    circuit: &mut Circuit,
    digits: &[Lit],
    by: usize,
    choice: Lit,
    zero: Lit,
) -> Result<Vec<Lit>, NoMemory>
    requires number { All (IsOf circuit.old) digits.now }
    requires choice { IsOf circuit.old choice }
    requires zero { IsOf circuit.old zero }
    requires room { length circuit.old + length digits.now ≤ 2 ^ 30 }
    ensures adds { AddsGates circuit.old circuit.new (length digits.now) }
    ensures len { IfOk result (λ r. length r.items ≡ length digits.now) }
    ensures of { IfOk result (λ r. All (IsOf circuit.new) r.items) }
    ensures value { IfOk result (λ r. (s : ℕ → Bool) → Gives s circuit.new → lit_value s zero ≡ false → nat_of s r.items
        ≡ (nat_of s digits.now * 2 ^ (by * lit_bit s choice)) % 2 ^ length digits.now) }
{
    let moved = raised(circuit, digits, by, zero)?;
    let chosen = choose(circuit, choice, &moved, digits)?;
    Ok(chosen)
}

/// The digits shifted to the right by some places where the choice is true, and else as they are.
fn right_stage(
    circuit: &mut Circuit,
    digits: &[Lit],
    by: usize,
    choice: Lit,
    fill: Lit,
) -> Result<Vec<Lit>, NoMemory>
    requires number { All (IsOf circuit.old) digits.now }
    requires choice { IsOf circuit.old choice }
    requires fill { IsOf circuit.old fill }
    requires room { length circuit.old + length digits.now ≤ 2 ^ 30 }
    ensures adds { AddsGates circuit.old circuit.new (length digits.now) }
    ensures len { IfOk result (λ r. length r.items ≡ length digits.now) }
    ensures of { IfOk result (λ r. All (IsOf circuit.new) r.items) }
    ensures value { IfOk result (λ r. (s : ℕ → Bool) → Gives s circuit.new → nat_of s r.items
        ≡ moved_right (length digits.now) (lit_value s fill) (nat_of s digits.now) (by * lit_bit s choice)) }
{
    let moved = lowered(circuit, digits, by, fill)?;
    let chosen = choose(circuit, choice, &moved, digits)?;
    Ok(chosen)
}
