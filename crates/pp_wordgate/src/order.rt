//! Comparisons.

ghost use Rattle.std.specs.Prelude.{◌≡◌, ◌↔◌, ℕ, Bool, true, ◌+◌, ◌^◌, ◌≤◌, All, length, IfOk};
ghost use Rattle.pp_clause.specs.Literal.{lit_value};
ghost use Rattle.std.specs.Int.{w32};
ghost use Rattle.pp_gate.specs.Circuit.{IsOf, Gives, StandsFor};
ghost use Rattle.pp_gate.specs.Growth.{AddsGates};
ghost use Rattle.pp_wordgate.specs.Meaning.{word_of};
ghost use Rattle.pp_word.specs.Word.{word_less};

use crate::NoMemory;
use pp_clause::Lit;
use pp_gate::{Circuit, Word};

/// Whether the two are equal (JLS 15.21.1): at most 64 gates.
///
/// On `NoMemory` the old gates stand, and some new ones may be left.
pub fn equal(circuit: &mut Circuit, a: Word, b: Word) -> Result<Lit, NoMemory>
    requires room { length circuit.old + 64 ≤ 2 ^ 30 }
    requires left { All (IsOf circuit.old) a }
    requires right { All (IsOf circuit.old) b }
    ensures adds { AddsGates circuit.old circuit.new 64 }
    ensures of { IfOk result (λ r. IsOf circuit.new r) }
    ensures value { IfOk result (λ r. (s : ℕ → Bool) → Gives s circuit.new
        → (lit_value s r ≡ true) ↔ (word_of w32 s a ≡ word_of w32 s b)) }
{
    let equal = pp_bits::equal(circuit, a.lits(), b.lits())?;
    Ok(equal)
}

/// Whether `a` is less than `b` (JLS 15.20.1): at most 256 gates.
///
/// On `NoMemory` the old gates stand, and some new ones may be left.
pub fn less(circuit: &mut Circuit, a: Word, b: Word) -> Result<Lit, NoMemory>
    requires room { length circuit.old + 256 ≤ 2 ^ 30 }
    requires left { All (IsOf circuit.old) a }
    requires right { All (IsOf circuit.old) b }
    ensures adds { AddsGates circuit.old circuit.new 256 }
    ensures stands { IfOk result (λ r. StandsFor circuit.new r (λ s. word_less (word_of w32 s a) (word_of w32 s b))) }
{
    let less = pp_bits::less_signed(circuit, a.lits(), b.lits())?;
    Ok(less)
}
