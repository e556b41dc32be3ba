//! Short words: 32 literals of which the upper ones are one literal, so that few inputs tell few values apart.

ghost use Rattle.std.specs.Prelude.{◌+◌, ◌^◌, ◌≤◌, ◌<◌, length, IfOk};
ghost use Rattle.pp_gate.specs.Circuit.{IsCircuit, IsOf};
ghost use Rattle.pp_gate.specs.Growth.{Grows};
ghost use Rattle.pp_domain.specs.Plain.{IsMaskedWord};
ghost use Rattle.pp_domain.specs.Short.{IsShort, IsShortWord};

use pp_clause::{Lit, NoMemory};
use pp_gate::{Circuit, Word};

/// A word of inputs, of which all literals from the one at place `low` on are one, which can be any number whose digits
/// are so.
///
/// On `NoMemory` the old gates stand, and some of the inputs may be left.
pub fn short_word(circuit: &mut Circuit, low: u32) -> Result<Word, NoMemory>
    requires low { low < 32 }
    requires room { length circuit.old + 32 ≤ 2 ^ 30 }
    ensures grows { Grows circuit.old circuit.new 32 }
    ensures circuit { IsCircuit circuit.new }
    ensures short { IfOk result (λ r. IsShortWord circuit.old circuit.new low r) }
{
    let mut digits = pp_bits::inputs(circuit, low as usize + 1)?;
    let sign = digits[low as usize];
    for _place in low + 1..32 {
        digits.push(sign)?;
    }
    Ok(Word::from_lits(&digits))
}

/// Such a word where the literal is true, and 0 where it is false.
///
/// On `NoMemory` the old gates stand, and some of the inputs and gates may be left.
pub fn masked_short_word(circuit: &mut Circuit, lit: Lit, low: u32) -> Result<Word, NoMemory>
    requires lit { IsOf circuit.old lit }
    requires low { low < 32 }
    requires room { length circuit.old + 64 ≤ 2 ^ 30 }
    ensures grows { Grows circuit.old circuit.new 64 }
    ensures circuit { IsCircuit circuit.new }
    ensures masked { IfOk result (λ r. IsMaskedWord circuit.old circuit.new (IsShort low) lit r) }
{
    let word = short_word(circuit, low)?;
    let blank = pp_bits::constant(circuit, 0, 32)?;
    let digits = pp_bits::choose(circuit, lit, word.lits(), &blank)?;
    Ok(Word::from_lits(&digits))
}
