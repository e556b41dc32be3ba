//! Quotients and remainders.

ghost use Rattle.std.specs.Prelude.{◌≡◌, ℕ, Bool, ◌+◌, ◌*◌, ◌^◌, ◌<◌, ◌≤◌, min, All, length, IfOk};
ghost use Rattle.pp_gate.specs.Circuit.{IsOf, Gives};
ghost use Rattle.pp_gate.specs.Growth.{AddsGates};
ghost use Rattle.pp_bits.specs.Number.{nat_of, lit_bit};
ghost use Rattle.pp_products.specs.Division.{Divides};

use crate::NoMemory;
use crate::digits::{exceeds, over, resized};
use pp_bits::{choose, constant, sub_borrow};
use pp_clause::Lit;
use pp_gate::Circuit;

/// One digit of a quotient: where `rest` is less than `d`, the quotient and the remainder of `low + 2 * rest` by `d`.
/// The remainder has one digit more than `rest`, but no more than `d`.
fn divide_step(
    circuit: &mut Circuit,
    d: &[Lit],
    low: Lit,
    rest: &[Lit],
) -> Result<(Lit, Vec<Lit>), NoMemory>
    requires fewer { length rest.now ≤ length d.now }
    requires divisor { All (IsOf circuit.old) d.now }
    requires low { IsOf circuit.old low }
    requires rest { All (IsOf circuit.old) rest.now }
    requires room { length circuit.old + (5 * length d.now + 4) ≤ 2 ^ 30 }
    ensures adds { AddsGates circuit.old circuit.new (5 * length d.now + 4) }
    ensures digit_of { IfOk result (λ r. IsOf circuit.new r.0) }
    ensures len { IfOk result (λ r. length r.1.items ≡ min (length rest.now + 1) (length d.now)) }
    ensures of { IfOk result (λ r. All (IsOf circuit.new) r.1.items) }
    ensures value { IfOk result (λ r. (s : ℕ → Bool) → Gives s circuit.new → nat_of s rest.now < nat_of s d.now
        → Divides (lit_bit s low + 2 * nat_of s rest.now) (nat_of s d.now) (lit_bit s r.0) (nat_of s r.1.items)) }
{
    let width = rest.len() + 1;
    let greater = exceeds(circuit, d, width)?;
    let wide = over(circuit.allocator(), low, rest)?;
    let divisor = resized(circuit, d, width)?;
    let (less, borrow) = sub_borrow(circuit, &wide, &divisor)?;
    let stays = circuit.or(borrow, greater)?;
    let places = width.min(d.len());
    let left = choose(circuit, stays, &wide[..places], &less[..places])?;
    let digit = stays.negated();
    Ok((digit, left))
}

/// The quotient and the remainder of natural numbers, where the divisor `d` isn't 0.
///
/// The quotient has as many digits as `a`, and the remainder as many as `d`. By restoring division, the highest digit
/// first; after k digits the remainder has at most k, so no more are subtracted. On `NoMemory` the old gates stand, and
/// some of the new ones may.
pub fn divide(circuit: &mut Circuit, a: &[Lit], d: &[Lit]) -> Result<(Vec<Lit>, Vec<Lit>), NoMemory>
    requires left { All (IsOf circuit.old) a.now }
    requires right { All (IsOf circuit.old) d.now }
    requires room { length circuit.old + (5 * length d.now + 4) * length a.now ≤ 2 ^ 30 }
    ensures adds { AddsGates circuit.old circuit.new ((5 * length d.now + 4) * length a.now) }
    ensures len { IfOk result (λ r. length r.0.items ≡ length a.now) }
    ensures of { IfOk result (λ r. All (IsOf circuit.new) r.0.items) }
    ensures rest_len { IfOk result (λ r. length r.1.items ≡ length d.now) }
    ensures rest_of { IfOk result (λ r. All (IsOf circuit.new) r.1.items) }
    ensures value { IfOk result (λ r. (s : ℕ → Bool) → Gives s circuit.new → 0 < nat_of s d.now
        → Divides (nat_of s a.now) (nat_of s d.now) (nat_of s r.0.items) (nat_of s r.1.items)) }
{
    let (quotient, rest) = divide_digits(circuit, a, d)?;
    let remainder = resized(circuit, &rest, d.len())?;
    Ok((quotient, remainder))
}

/// The same, but the remainder has no more digits than `a`.
fn divide_digits(
    circuit: &mut Circuit,
    a: &[Lit],
    d: &[Lit],
) -> Result<(Vec<Lit>, Vec<Lit>), NoMemory>
    requires left { All (IsOf circuit.old) a.now }
    requires right { All (IsOf circuit.old) d.now }
    requires room { length circuit.old + (5 * length d.now + 4) * length a.now ≤ 2 ^ 30 }
    ensures adds { AddsGates circuit.old circuit.new ((5 * length d.now + 4) * length a.now) }
    ensures len { IfOk result (λ r. length r.0.items ≡ length a.now) }
    ensures of { IfOk result (λ r. All (IsOf circuit.new) r.0.items) }
    ensures rest_len { IfOk result (λ r. length r.1.items ≡ min (length a.now) (length d.now)) }
    ensures rest_of { IfOk result (λ r. All (IsOf circuit.new) r.1.items) }
    ensures value { IfOk result (λ r. (s : ℕ → Bool) → Gives s circuit.new → 0 < nat_of s d.now
        → Divides (nat_of s a.now) (nat_of s d.now) (nat_of s r.0.items) (nat_of s r.1.items)) }
{
    if a.is_empty() {
        let none = constant(circuit, 0, a.len())?;
        let rest = constant(circuit, 0, a.len())?;
        Ok((none, rest))
    } else {
        let (high, rest) = divide_digits(circuit, &a[1..], d)?;
        let (digit, left) = divide_step(circuit, d, a[0], &rest)?;
        let all = over(circuit.allocator(), digit, &high)?;
        Ok((all, left))
    }
}
