//! Quotient and remainder.

ghost use Rattle.std.specs.Prelude.{◌≡◌, ◌≢◌, ℕ, Bool, ◌+◌, ◌^◌, ◌≤◌, All, length, IfOk, pos};
ghost use Rattle.std.specs.Int.{w32};
ghost use Rattle.pp_gate.specs.Circuit.{IsOf, Gives};
ghost use Rattle.pp_gate.specs.Growth.{AddsGates};
ghost use Rattle.pp_word.specs.Word.{word_div, word_rem};
ghost use Rattle.pp_wordgate.specs.Meaning.{word_of};

use crate::NoMemory;
use crate::signed::{quotient, remainder};
use pp_gate::{Circuit, Word};

/// The quotient, rounded toward zero, where `b` isn't 0 (JLS 15.17.2): at most 16,256 gates. `i32::MIN` by -1 is
/// `i32::MIN`. Where `b` is 0 nothing is promised of the answer's value.
///
/// On `NoMemory` the old gates stand, and some new ones may be left.
pub fn div(circuit: &mut Circuit, a: Word, b: Word) -> Result<Word, NoMemory>
    requires room { length circuit.old + 16256 ≤ 2 ^ 30 }
    requires left { All (IsOf circuit.old) a }
    requires right { All (IsOf circuit.old) b }
    ensures adds { AddsGates circuit.old circuit.new 16256 }
    ensures of { IfOk result (λ r. All (IsOf circuit.new) r) }
    ensures value { IfOk result (λ r. (s : ℕ → Bool) → Gives s circuit.new → word_of w32 s b ≢ pos 0 → word_of w32 s r
        ≡ word_div w32 (word_of w32 s a) (word_of w32 s b)) }
{
    let digits = quotient(circuit, a.lits(), b.lits())?;
    Ok(Word::from_lits(&digits))
}

/// The remainder, with the sign of the dividend `a`, where `b` isn't 0 (JLS 15.17.3): at most 16,256 gates. `i32::MIN`
/// by -1 leaves 0. Where `b` is 0 nothing is promised of the answer's value.
///
/// On `NoMemory` the old gates stand, and some new ones may be left.
pub fn rem(circuit: &mut Circuit, a: Word, b: Word) -> Result<Word, NoMemory>
    requires room { length circuit.old + 16256 ≤ 2 ^ 30 }
    requires left { All (IsOf circuit.old) a }
    requires right { All (IsOf circuit.old) b }
    ensures adds { AddsGates circuit.old circuit.new 16256 }
    ensures of { IfOk result (λ r. All (IsOf circuit.new) r) }
    ensures value { IfOk result (λ r. (s : ℕ → Bool) → Gives s circuit.new → word_of w32 s b ≢ pos 0 → word_of w32 s r
        ≡ word_rem w32 (word_of w32 s a) (word_of w32 s b)) }
{
    let digits = remainder(circuit, a.lits(), b.lits())?;
    Ok(Word::from_lits(&digits))
}
