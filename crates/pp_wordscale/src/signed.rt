//! Quotients and remainders of integers in two's complement of any number of digits, from those of their magnitudes.

ghost use Rattle.std.specs.Prelude.{◌≡◌, ℕ, Bool, ◌+◌, ◌-◌, ◌*◌, ◌%◌, ◌^◌, ◌<◌, ◌≤◌, if◌then◌else◌, All, length, IfOk};
ghost use Rattle.pp_clause.specs.Literal.{lit_value};
ghost use Rattle.pp_gate.specs.Circuit.{IsOf, Gives};
ghost use Rattle.pp_gate.specs.Growth.{AddsGates};
ghost use Rattle.pp_word.specs.Word.{word_div, word_rem};
ghost use Rattle.pp_bits.specs.Number.{nat_of, StandsForNumber};
ghost use Rattle.pp_products.specs.Division.{Divides};
ghost use Rattle.pp_wordscale.specs.Division.{magnitude_of, division_gates, StandsForDivision};

use crate::NoMemory;
use pp_clause::Lit;
use pp_gate::Circuit;
use pp_shifts::sign;

/// The quotient, rounded toward zero, where `b` isn't 0.
pub(crate) fn quotient(circuit: &mut Circuit, a: &[Lit], b: &[Lit]) -> Result<Vec<Lit>, NoMemory>
    requires same { length a.now ≡ length b.now }
    requires left { All (IsOf circuit.old) a.now }
    requires right { All (IsOf circuit.old) b.now }
    requires room { length circuit.old + division_gates (length a.now) ≤ 2 ^ 30 }
    ensures adds { AddsGates circuit.old circuit.new (division_gates (length a.now)) }
    ensures stands { IfOk result (λ r. StandsForDivision word_div circuit.new a.now b.now r.items) }
{
    let (quotient, _) = divide_magnitudes(circuit, a, b)?;
    let first = sign(circuit, a);
    let second = sign(circuit, b);
    let negative = circuit.xor(first, second)?;
    let digits = with_sign(circuit, negative, &quotient)?;
    Ok(digits)
}

/// The remainder, with the sign of the dividend `a`, where `b` isn't 0.
pub(crate) fn remainder(circuit: &mut Circuit, a: &[Lit], b: &[Lit]) -> Result<Vec<Lit>, NoMemory>
    requires same { length a.now ≡ length b.now }
    requires left { All (IsOf circuit.old) a.now }
    requires right { All (IsOf circuit.old) b.now }
    requires room { length circuit.old + division_gates (length a.now) ≤ 2 ^ 30 }
    ensures adds { AddsGates circuit.old circuit.new (division_gates (length a.now)) }
    ensures stands { IfOk result (λ r. StandsForDivision word_rem circuit.new a.now b.now r.items) }
{
    let (_, rest) = divide_magnitudes(circuit, a, b)?;
    let negative = sign(circuit, a);
    let digits = with_sign(circuit, negative, &rest)?;
    Ok(digits)
}

/// The quotient and the remainder of the magnitudes, where `b` isn't 0.
fn divide_magnitudes(
    circuit: &mut Circuit,
    a: &[Lit],
    b: &[Lit],
) -> Result<(Vec<Lit>, Vec<Lit>), NoMemory>
    requires same { length a.now ≡ length b.now }
    requires left { All (IsOf circuit.old) a.now }
    requires right { All (IsOf circuit.old) b.now }
    requires room { length circuit.old + (5 * length a.now + 12) * length a.now ≤ 2 ^ 30 }
    ensures adds { AddsGates circuit.old circuit.new ((5 * length a.now + 12) * length a.now) }
    ensures len { IfOk result (λ r. length r.0.items ≡ length a.now) }
    ensures of { IfOk result (λ r. All (IsOf circuit.new) r.0.items) }
    ensures rest_len { IfOk result (λ r. length r.1.items ≡ length a.now) }
    ensures rest_of { IfOk result (λ r. All (IsOf circuit.new) r.1.items) }
    ensures value { IfOk result (λ r. (s : ℕ → Bool) → Gives s circuit.new → 0 < nat_of s b.now
        → Divides (magnitude_of (length a.now) (nat_of s a.now)) (magnitude_of (length a.now) (nat_of s b.now))
        (nat_of s r.0.items) (nat_of s r.1.items)) }
{
    let dividend = magnitude(circuit, a)?;
    let divisor = magnitude(circuit, b)?;
    let parts = pp_products::divide(circuit, &dividend, &divisor)?;
    Ok(parts)
}

/// The magnitude of an integer.
fn magnitude(circuit: &mut Circuit, a: &[Lit]) -> Result<Vec<Lit>, NoMemory>
    requires room { length circuit.old + 4 * length a.now ≤ 2 ^ 30 }
    requires of { All (IsOf circuit.old) a.now }
    ensures adds { AddsGates circuit.old circuit.new (4 * length a.now) }
    ensures stands { IfOk result (λ r. StandsForNumber circuit.new (length a.now) r.items
        (λ s. magnitude_of (length a.now) (nat_of s a.now))) }
{
    let negative = sign(circuit, a);
    let digits = with_sign(circuit, negative, a)?;
    Ok(digits)
}

/// The number that makes 2^n with `a` where `negative` is true, and else `a`, as many digits of it as `a` has.
fn with_sign(circuit: &mut Circuit, negative: Lit, a: &[Lit]) -> Result<Vec<Lit>, NoMemory>
    requires room { length circuit.old + 4 * length a.now ≤ 2 ^ 30 }
    requires negative { IsOf circuit.old negative }
    requires of { All (IsOf circuit.old) a.now }
    ensures adds { AddsGates circuit.old circuit.new (4 * length a.now) }
    ensures stands { IfOk result (λ r. StandsForNumber circuit.new (length a.now) r.items
        (λ s. if lit_value s negative
        then (2 ^ length a.now - nat_of s a.now) % 2 ^ length a.now
        else nat_of s a.now)) }
{
    let negated = pp_bits::neg(circuit, a)?;
    let digits = pp_bits::choose(circuit, negative, &negated, a)?;
    Ok(digits)
}
