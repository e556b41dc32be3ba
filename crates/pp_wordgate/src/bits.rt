//! The operations on each bit.

ghost use Rattle.std.specs.Prelude.{◌+◌, ◌^◌, ◌≤◌, All, length, IfOk};
ghost use Rattle.std.specs.Int.{w32};
ghost use Rattle.pp_gate.specs.Circuit.{IsOf};
ghost use Rattle.pp_gate.specs.Growth.{AddsGates};
ghost use Rattle.pp_wordgate.specs.Meaning.{word_of, StandsForWord};
ghost use Rattle.pp_word.specs.Word.{word_and, word_or, word_xor, word_not};

use crate::NoMemory;
use pp_gate::{Circuit, Word};

/// The bits that both have, `&` (JLS 15.22.1): at most 64 gates.
///
/// On `NoMemory` the old gates stand, and some new ones may be left.
pub fn and(circuit: &mut Circuit, a: Word, b: Word) -> Result<Word, NoMemory>
    requires room { length circuit.old + 64 ≤ 2 ^ 30 }
    requires left { All (IsOf circuit.old) a }
    requires right { All (IsOf circuit.old) b }
    ensures adds { AddsGates circuit.old circuit.new 64 }
    ensures stands { IfOk result (λ r. StandsForWord w32 circuit.new r
        (λ s. word_and w32 (word_of w32 s a) (word_of w32 s b))) }
{
    let digits = pp_bits::and(circuit, a.lits(), b.lits())?;
    Ok(Word::from_lits(&digits))
}

/// The bits that one or both have, `|` (JLS 15.22.1): at most 64 gates.
///
/// On `NoMemory` the old gates stand, and some new ones may be left.
pub fn or(circuit: &mut Circuit, a: Word, b: Word) -> Result<Word, NoMemory>
    requires room { length circuit.old + 64 ≤ 2 ^ 30 }
    requires left { All (IsOf circuit.old) a }
    requires right { All (IsOf circuit.old) b }
    ensures adds { AddsGates circuit.old circuit.new 64 }
    ensures stands { IfOk result (λ r. StandsForWord w32 circuit.new r
        (λ s. word_or w32 (word_of w32 s a) (word_of w32 s b))) }
{
    let digits = pp_bits::or(circuit, a.lits(), b.lits())?;
    Ok(Word::from_lits(&digits))
}

/// The bits that one of the two has and the other has not, `^` (JLS 15.22.1): at most 64 gates.
///
/// On `NoMemory` the old gates stand, and some new ones may be left.
pub fn xor(circuit: &mut Circuit, a: Word, b: Word) -> Result<Word, NoMemory>
    requires room { length circuit.old + 64 ≤ 2 ^ 30 }
    requires left { All (IsOf circuit.old) a }
    requires right { All (IsOf circuit.old) b }
    ensures adds { AddsGates circuit.old circuit.new 64 }
    ensures stands { IfOk result (λ r. StandsForWord w32 circuit.new r
        (λ s. word_xor w32 (word_of w32 s a) (word_of w32 s b))) }
{
    let digits = pp_bits::xor(circuit, a.lits(), b.lits())?;
    Ok(Word::from_lits(&digits))
}

/// The bits that `a` has not, `~` (JLS 15.15.5): at most 64 gates.
///
/// On `NoMemory` the old gates stand, and some new ones may be left.
pub fn not(circuit: &mut Circuit, a: Word) -> Result<Word, NoMemory>
    requires room { length circuit.old + 64 ≤ 2 ^ 30 }
    requires of { All (IsOf circuit.old) a }
    ensures adds { AddsGates circuit.old circuit.new 64 }
    ensures stands { IfOk result (λ r. StandsForWord w32 circuit.new r (λ s. word_not w32 (word_of w32 s a))) }
{
    let digits = pp_bits::invert(circuit, a.lits())?;
    Ok(Word::from_lits(&digits))
}
