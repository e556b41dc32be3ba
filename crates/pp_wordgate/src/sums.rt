//! Sums, differences and negations, which wrap.

ghost use Rattle.std.specs.Prelude.{◌+◌, ◌^◌, ◌≤◌, All, length, IfOk};
ghost use Rattle.std.specs.Int.{w32};
ghost use Rattle.pp_gate.specs.Circuit.{IsOf};
ghost use Rattle.pp_gate.specs.Growth.{AddsGates};
ghost use Rattle.pp_wordgate.specs.Meaning.{word_of, StandsForWord};
ghost use Rattle.pp_word.specs.Word.{word_add, word_sub, word_neg};

use crate::NoMemory;
use pp_gate::{Circuit, Word};

/// The sum, which wraps (JLS 15.18.2): at most 256 gates.
///
/// On `NoMemory` the old gates stand, and some new ones may be left.
pub fn add(circuit: &mut Circuit, a: Word, b: Word) -> Result<Word, NoMemory>
    requires room { length circuit.old + 256 ≤ 2 ^ 30 }
    requires left { All (IsOf circuit.old) a }
    requires right { All (IsOf circuit.old) b }
    ensures adds { AddsGates circuit.old circuit.new 256 }
    ensures stands { IfOk result (λ r. StandsForWord w32 circuit.new r
        (λ s. word_add w32 (word_of w32 s a) (word_of w32 s b))) }
{
    let sum = pp_bits::add(circuit, a.lits(), b.lits())?;
    Ok(Word::from_lits(&sum))
}

/// The difference, which wraps (JLS 15.18.2): at most 256 gates.
///
/// On `NoMemory` the old gates stand, and some new ones may be left.
pub fn sub(circuit: &mut Circuit, a: Word, b: Word) -> Result<Word, NoMemory>
    requires room { length circuit.old + 256 ≤ 2 ^ 30 }
    requires left { All (IsOf circuit.old) a }
    requires right { All (IsOf circuit.old) b }
    ensures adds { AddsGates circuit.old circuit.new 256 }
    ensures stands { IfOk result (λ r. StandsForWord w32 circuit.new r
        (λ s. word_sub w32 (word_of w32 s a) (word_of w32 s b))) }
{
    let difference = pp_bits::sub(circuit, a.lits(), b.lits())?;
    Ok(Word::from_lits(&difference))
}

/// The negation, which wraps (JLS 15.15.4): at most 256 gates.
///
/// On `NoMemory` the old gates stand, and some new ones may be left.
pub fn neg(circuit: &mut Circuit, a: Word) -> Result<Word, NoMemory>
    requires room { length circuit.old + 256 ≤ 2 ^ 30 }
    requires of { All (IsOf circuit.old) a }
    ensures adds { AddsGates circuit.old circuit.new 256 }
    ensures stands { IfOk result (λ r. StandsForWord w32 circuit.new r (λ s. word_neg w32 (word_of w32 s a))) }
{
    let negated = pp_bits::neg(circuit, a.lits())?;
    Ok(Word::from_lits(&negated))
}
