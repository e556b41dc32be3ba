//! Comparisons.

ghost use Rattle.std.specs.Prelude.{◌≡◌, ℕ, Bool, ◌+◌, ◌-◌, ◌*◌, ◌^◌, ◌<◌, ◌≤◌, ◌==◌, ◌&&◌, not, if◌then◌else◌, nat_lt};
ghost use Rattle.std.specs.Prelude.{All, length, IfOk, IsTrue, ◌↔◌};
ghost use Rattle.std.specs.Int.RustNames.{int_lt};
ghost use Rattle.pp_clause.specs.Literal.{lit_value};
ghost use Rattle.pp_gate.specs.Circuit.{IsOf, StandsFor};
ghost use Rattle.pp_gate.specs.Gate.{xor_of, majority_of};
ghost use Rattle.pp_gate.specs.Growth.{AddsGates};
ghost use Rattle.pp_bits.specs.Number.{nat_of, signed_of};
ghost use Rattle.pp_bits.specs.Repeated.{IsRepeatedAt};

use crate::NoMemory;
use pp_clause::Lit;
use pp_gate::Circuit;

/// Whether `both` is true, and `a` and `b` are of one value.
fn equal_so_far(circuit: &mut Circuit, both: Lit, a: Lit, b: Lit) -> Result<Lit, NoMemory>
    requires both { IsOf circuit.old both }
    requires left { IsOf circuit.old a }
    requires right { IsOf circuit.old b }
    requires room { length circuit.old + 2 ≤ 2 ^ 30 }
    ensures adds { AddsGates circuit.old circuit.new 2 }
    ensures stands { IfOk result (λ r. StandsFor circuit.new r
        (λ s. lit_value s both && not (xor_of (lit_value s a) (lit_value s b)))) }
{
    let differ = circuit.xor(a, b)?;
    let equal = circuit.and(both, differ.negated())?;
    Ok(equal)
}

/// Whether the pair of digits at place `i` is the pair before it.
fn is_repeated(a: &[Lit], b: &[Lit], i: usize) -> bool
    requires left { i < length a.now }
    requires right { i < length b.now }
    ensures { IsTrue result ↔ (IsRepeatedAt a.now i × IsRepeatedAt b.now i) }
{
    0 < i && a[i] == a[i - 1] && b[i] == b[i - 1]
}

/// Whether the two are equal. A pair of digits that is the pair before it adds no gate.
pub fn equal(circuit: &mut Circuit, a: &[Lit], b: &[Lit]) -> Result<Lit, NoMemory>
    requires same { length a.now ≡ length b.now }
    requires left { All (IsOf circuit.old) a.now }
    requires right { All (IsOf circuit.old) b.now }
    requires room { length circuit.old + 2 * length a.now ≤ 2 ^ 30 }
    ensures adds { AddsGates circuit.old circuit.new (2 * length a.now) }
    ensures stands { IfOk result (λ r. StandsFor circuit.new r (λ s. nat_of s a.now == nat_of s b.now)) }
{
    let mut equal = circuit.truth();
    for i in 0..a.len() {
        if !is_repeated(a, b, i) {
            equal = equal_so_far(circuit, equal, a[i], b[i])?;
        }
    }
    Ok(equal)
}

/// Whether `a` is less than `b` once a digit of each stands above the digits of which `lower` is the order.
fn less_so_far(circuit: &mut Circuit, lower: Lit, a: Lit, b: Lit) -> Result<Lit, NoMemory>
    requires lower { IsOf circuit.old lower }
    requires left { IsOf circuit.old a }
    requires right { IsOf circuit.old b }
    requires room { length circuit.old + 1 ≤ 2 ^ 30 }
    ensures adds { AddsGates circuit.old circuit.new 1 }
    ensures stands { IfOk result (λ r. StandsFor circuit.new r
        (λ s. majority_of (not (lit_value s a)) (lit_value s b) (lit_value s lower))) }
{
    let less = circuit.majority(a.negated(), b, lower)?;
    Ok(less)
}

/// Whether `a` is less than `b`, as natural numbers. A pair of digits that is the pair before it adds no gate.
pub fn less(circuit: &mut Circuit, a: &[Lit], b: &[Lit]) -> Result<Lit, NoMemory>
    requires same { length a.now ≡ length b.now }
    requires left { All (IsOf circuit.old) a.now }
    requires right { All (IsOf circuit.old) b.now }
    requires room { length circuit.old + length a.now ≤ 2 ^ 30 }
    ensures adds { AddsGates circuit.old circuit.new (length a.now) }
    ensures stands { IfOk result (λ r. StandsFor circuit.new r (λ s. nat_lt (nat_of s a.now) (nat_of s b.now))) }
{
    let mut less = circuit.truth().negated();
    for i in 0..a.len() {
        if !is_repeated(a, b, i) {
            less = less_so_far(circuit, less, a[i], b[i])?;
        }
    }
    Ok(less)
}

/// Whether `a` is less than `b`, as integers in two's complement of at least one digit.
pub fn less_signed(circuit: &mut Circuit, a: &[Lit], b: &[Lit]) -> Result<Lit, NoMemory>
    requires some { 0 < length a.now }
    requires same { length a.now ≡ length b.now }
    requires left { All (IsOf circuit.old) a.now }
    requires right { All (IsOf circuit.old) b.now }
    requires room { length circuit.old + length a.now ≤ 2 ^ 30 }
    ensures adds { AddsGates circuit.old circuit.new (length a.now) }
    ensures stands { IfOk result (λ r. StandsFor circuit.new r
        (λ s. int_lt (signed_of (length a.now) (nat_of s a.now)) (signed_of (length a.now) (nat_of s b.now)))) }
{
    let top = a.len() - 1;
    let lower = less(circuit, &a[..top], &b[..top])?;
    // the sign's digit counts the other way round
    let less = less_so_far(circuit, lower, b[top], a[top])?;
    Ok(less)
}
