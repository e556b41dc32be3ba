//! Shifts, by the low five bits of the second word.

ghost use Rattle.std.specs.Prelude.{◌+◌, ◌^◌, ◌≤◌, All, length, IfOk};
ghost use Rattle.std.specs.Int.{w32};
ghost use Rattle.pp_gate.specs.Circuit.{IsOf};
ghost use Rattle.pp_gate.specs.Growth.{AddsGates};
ghost use Rattle.pp_wordgate.specs.Meaning.{word_of, StandsForWord};
ghost use Rattle.pp_word.specs.Word.{word_shl, word_shr, word_ushr};

use crate::NoMemory;
use pp_gate::{Circuit, Word};

/// How many of the lowest bits of a word are its shift distance.
const DISTANCE_BITS: usize = 5;

/// The shift to the left, `<<`, by the low five bits of `b` (JLS 15.19): zeros come in on the right. At most 512 gates.
///
/// On `NoMemory` the old gates stand, and some new ones may be left.
pub fn shl(circuit: &mut Circuit, a: Word, b: Word) -> Result<Word, NoMemory>
    requires room { length circuit.old + 512 ≤ 2 ^ 30 }
    requires left { All (IsOf circuit.old) a }
    requires right { All (IsOf circuit.old) b }
    ensures adds { AddsGates circuit.old circuit.new 512 }
    ensures stands { IfOk result (λ r. StandsForWord w32 circuit.new r
        (λ s. word_shl w32 (word_of w32 s a) (word_of w32 s b))) }
{
    let distance = &b.lits()[..DISTANCE_BITS];
    let digits = pp_shifts::shl(circuit, a.lits(), distance)?;
    Ok(Word::from_lits(&digits))
}

/// The shift to the right, `>>`, by the low five bits of `b` (JLS 15.19): copies of the sign come in on the left. At
/// most 512 gates.
///
/// On `NoMemory` the old gates stand, and some new ones may be left.
pub fn shr(circuit: &mut Circuit, a: Word, b: Word) -> Result<Word, NoMemory>
    requires room { length circuit.old + 512 ≤ 2 ^ 30 }
    requires left { All (IsOf circuit.old) a }
    requires right { All (IsOf circuit.old) b }
    ensures adds { AddsGates circuit.old circuit.new 512 }
    ensures stands { IfOk result (λ r. StandsForWord w32 circuit.new r
        (λ s. word_shr w32 (word_of w32 s a) (word_of w32 s b))) }
{
    let distance = &b.lits()[..DISTANCE_BITS];
    let digits = pp_shifts::shr(circuit, a.lits(), distance)?;
    Ok(Word::from_lits(&digits))
}

/// The unsigned shift to the right, `>>>`, by the low five bits of `b` (JLS 15.19): zeros come in on the left. At
/// most 512 gates.
///
/// On `NoMemory` the old gates stand, and some new ones may be left.
pub fn ushr(circuit: &mut Circuit, a: Word, b: Word) -> Result<Word, NoMemory>
    requires room { length circuit.old + 512 ≤ 2 ^ 30 }
    requires left { All (IsOf circuit.old) a }
    requires right { All (IsOf circuit.old) b }
    ensures adds { AddsGates circuit.old circuit.new 512 }
    ensures stands { IfOk result (λ r. StandsForWord w32 circuit.new r
        (λ s. word_ushr w32 (word_of w32 s a) (word_of w32 s b))) }
{
    let distance = &b.lits()[..DISTANCE_BITS];
    let digits = pp_shifts::ushr(circuit, a.lits(), distance)?;
    Ok(Word::from_lits(&digits))
}
