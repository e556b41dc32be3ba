//! Products, which wrap.

ghost use Rattle.std.specs.Prelude.{◌+◌, ◌^◌, ◌≤◌, All, length, IfOk};
ghost use Rattle.std.specs.Int.{w32};
ghost use Rattle.pp_gate.specs.Circuit.{IsOf};
ghost use Rattle.pp_gate.specs.Growth.{AddsGates};
ghost use Rattle.pp_word.specs.Word.{word_mul};
ghost use Rattle.pp_wordgate.specs.Meaning.{word_of, StandsForWord};

use crate::NoMemory;
use pp_gate::{Circuit, Word};

/// The product, which wraps (JLS 15.17.1): at most 8,192 gates.
///
/// On `NoMemory` the old gates stand, and some new ones may be left.
pub fn mul(circuit: &mut Circuit, a: Word, b: Word) -> Result<Word, NoMemory>
    requires room { length circuit.old + 8192 ≤ 2 ^ 30 }
    requires left { All (IsOf circuit.old) a }
    requires right { All (IsOf circuit.old) b }
    ensures adds { AddsGates circuit.old circuit.new 8192 }
    ensures stands { IfOk result (λ r. StandsForWord w32 circuit.new r
        (λ s. word_mul w32 (word_of w32 s a) (word_of w32 s b))) }
{
    let product = pp_products::mul(circuit, a.lits(), b.lits())?;
    Ok(Word::from_lits(&product))
}
