//! Sums, differences and negations.

ghost use Rattle.std.specs.Prelude.{◌≡◌, ℕ, Bool, ◌+◌, ◌-◌, ◌*◌, ◌%◌, ◌^◌, ◌≤◌, All, length, IfOk};
ghost use Rattle.pp_clause.specs.Literal.{lit_value};
ghost use Rattle.pp_gate.specs.Gate.{xor_of};
ghost use Rattle.pp_gate.specs.Circuit.{IsOf, Gives, StandsFor};
ghost use Rattle.pp_gate.specs.Growth.{AddsGates};
ghost use Rattle.pp_bits.specs.Number.{nat_of, lit_bit, StandsForNumber};

use crate::NoMemory;
use crate::choice::{constant, invert, no_digits};
use pp_clause::Lit;
use pp_gate::Circuit;

/// The sum of three digits, and the digit that it carries.
fn full_add(circuit: &mut Circuit, a: Lit, b: Lit, carry: Lit) -> Result<(Lit, Lit), NoMemory>
    requires left { IsOf circuit.old a }
    requires right { IsOf circuit.old b }
    requires carry { IsOf circuit.old carry }
    requires room { length circuit.old + 3 ≤ 2 ^ 30 }
    ensures adds { AddsGates circuit.old circuit.new 3 }
    ensures sum_of { IfOk result (λ r. IsOf circuit.new r.0) }
    ensures carry_of { IfOk result (λ r. IsOf circuit.new r.1) }
    ensures value { IfOk result (λ r. (s : ℕ → Bool) → Gives s circuit.new → lit_bit s r.0 + 2 * lit_bit s r.1
        ≡ lit_bit s a + lit_bit s b + lit_bit s carry) }
{
    let sum = odd_of(circuit, a, b, carry)?;
    let next = circuit.majority(a, b, carry)?;
    Ok((sum, next))
}

/// Whether an odd number of the three is true: the lowest digit of their sum.
fn odd_of(circuit: &mut Circuit, a: Lit, b: Lit, c: Lit) -> Result<Lit, NoMemory>
    requires first { IsOf circuit.old a }
    requires second { IsOf circuit.old b }
    requires third { IsOf circuit.old c }
    requires room { length circuit.old + 2 ≤ 2 ^ 30 }
    ensures adds { AddsGates circuit.old circuit.new 2 }
    ensures stands { IfOk result (λ r. StandsFor circuit.new r
        (λ s. xor_of (xor_of (lit_value s a) (lit_value s b)) (lit_value s c))) }
{
    let differ = circuit.xor(a, b)?;
    let odd = circuit.xor(differ, c)?;
    Ok(odd)
}

/// The sum of two numbers and a carry, and the carry that leaves it.
#[tactic(auto, using(crate::proofs::Growing::AddsGates_none))]
pub fn add_carry(
    circuit: &mut Circuit,
    a: &[Lit],
    b: &[Lit],
    carry: Lit,
) -> Result<(Vec<Lit>, Lit), NoMemory>
    requires same { length a.now ≡ length b.now }
    requires left { All (IsOf circuit.old) a.now }
    requires right { All (IsOf circuit.old) b.now }
    requires carry { IsOf circuit.old carry }
    requires room { length circuit.old + 3 * length a.now ≤ 2 ^ 30 }
    ensures adds { AddsGates circuit.old circuit.new (3 * length a.now) }
    ensures len { IfOk result (λ r. length r.0.items ≡ length a.now) }
    ensures of { IfOk result (λ r. All (IsOf circuit.new) r.0.items) }
    ensures carry_of { IfOk result (λ r. IsOf circuit.new r.1) }
    ensures value { IfOk result (λ r. (s : ℕ → Bool) → Gives s circuit.new
        → nat_of s r.0.items + 2 ^ length a.now * lit_bit s r.1 ≡ nat_of s a.now + nat_of s b.now + lit_bit s carry) }
{
    let mut digits = no_digits(circuit, a.len())?;
    let mut next = carry;
    for i in 0..a.len() {
        let (digit, out) = full_add(circuit, a[i], b[i], next)?;
        digits.push(digit)?;
        next = out;
    }
    Ok((digits, next))
}

/// The sum of two numbers and a carry, as many digits of it as `a` has: nothing is made of what the highest one
/// carries.
fn wrapping_sum(
    circuit: &mut Circuit,
    a: &[Lit],
    b: &[Lit],
    carry: Lit,
) -> Result<Vec<Lit>, NoMemory>
    requires same { length a.now ≡ length b.now }
    requires left { All (IsOf circuit.old) a.now }
    requires right { All (IsOf circuit.old) b.now }
    requires carry { IsOf circuit.old carry }
    requires room { length circuit.old + 3 * length a.now ≤ 2 ^ 30 }
    ensures adds { AddsGates circuit.old circuit.new (3 * length a.now) }
    ensures stands { IfOk result (λ r. StandsForNumber circuit.new (length a.now) r.items
        (λ s. (nat_of s a.now + nat_of s b.now + lit_bit s carry) % 2 ^ length a.now)) }
{
    if a.is_empty() {
        let none = constant(circuit, 0, a.len())?;
        Ok(none)
    } else {
        let top = a.len() - 1;
        let (mut digits, carry) = add_carry(circuit, &a[..top], &b[..top], carry)?;
        let digit = odd_of(circuit, a[top], b[top], carry)?;
        digits.push(digit)?;
        Ok(digits)
    }
}

/// The sum, as many digits of it as `a` has.
pub fn add(circuit: &mut Circuit, a: &[Lit], b: &[Lit]) -> Result<Vec<Lit>, NoMemory>
    requires same { length a.now ≡ length b.now }
    requires left { All (IsOf circuit.old) a.now }
    requires right { All (IsOf circuit.old) b.now }
    requires room { length circuit.old + 3 * length a.now ≤ 2 ^ 30 }
    ensures adds { AddsGates circuit.old circuit.new (3 * length a.now) }
    ensures stands { IfOk result (λ r. StandsForNumber circuit.new (length a.now) r.items
        (λ s. (nat_of s a.now + nat_of s b.now) % 2 ^ length a.now)) }
{
    let none = circuit.truth().negated();
    let sum = wrapping_sum(circuit, a, b, none)?;
    Ok(sum)
}

/// The difference, and whether `b` is greater than `a`, so that 2^n was borrowed for it.
pub fn sub_borrow(circuit: &mut Circuit, a: &[Lit], b: &[Lit]) -> Result<(Vec<Lit>, Lit), NoMemory>
    requires same { length a.now ≡ length b.now }
    requires left { All (IsOf circuit.old) a.now }
    requires right { All (IsOf circuit.old) b.now }
    requires room { length circuit.old + 3 * length a.now ≤ 2 ^ 30 }
    ensures adds { AddsGates circuit.old circuit.new (3 * length a.now) }
    ensures len { IfOk result (λ r. length r.0.items ≡ length a.now) }
    ensures of { IfOk result (λ r. All (IsOf circuit.new) r.0.items) }
    ensures borrow_of { IfOk result (λ r. IsOf circuit.new r.1) }
    ensures value { IfOk result (λ r. (s : ℕ → Bool) → Gives s circuit.new → nat_of s r.0.items + nat_of s b.now
        ≡ nat_of s a.now + 2 ^ length a.now * lit_bit s r.1) }
{
    let one = circuit.truth();
    let inverted = invert(circuit, b)?;
    let (difference, carry) = add_carry(circuit, a, &inverted, one)?;
    let borrow = carry.negated();
    Ok((difference, borrow))
}

/// The difference, as many digits of it as `a` has; where `b` is greater, 2^n more.
pub fn sub(circuit: &mut Circuit, a: &[Lit], b: &[Lit]) -> Result<Vec<Lit>, NoMemory>
    requires same { length a.now ≡ length b.now }
    requires left { All (IsOf circuit.old) a.now }
    requires right { All (IsOf circuit.old) b.now }
    requires room { length circuit.old + 3 * length a.now ≤ 2 ^ 30 }
    ensures adds { AddsGates circuit.old circuit.new (3 * length a.now) }
    ensures stands { IfOk result (λ r. StandsForNumber circuit.new (length a.now) r.items
        (λ s. (nat_of s a.now + (2 ^ length a.now - nat_of s b.now)) % 2 ^ length a.now)) }
{
    let one = circuit.truth();
    let inverted = invert(circuit, b)?;
    let difference = wrapping_sum(circuit, a, &inverted, one)?;
    Ok(difference)
}

/// The number that makes 2^n with `a`, as many digits of it as `a` has.
pub fn neg(circuit: &mut Circuit, a: &[Lit]) -> Result<Vec<Lit>, NoMemory>
    requires of { All (IsOf circuit.old) a.now }
    requires room { length circuit.old + 3 * length a.now ≤ 2 ^ 30 }
    ensures adds { AddsGates circuit.old circuit.new (3 * length a.now) }
    ensures stands { IfOk result (λ r. StandsForNumber circuit.new (length a.now) r.items
        (λ s. (2 ^ length a.now - nat_of s a.now) % 2 ^ length a.now)) }
{
    let zero = constant(circuit, 0, a.len())?;
    let negated = sub(circuit, &zero, a)?;
    Ok(negated)
}
