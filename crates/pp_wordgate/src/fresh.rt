//! Words of fresh inputs, and the value for which a word stands under an assignment.

ghost use Rattle.std.specs.Prelude.{◌≡◌, ℕ, Bool, ◌+◌, ◌^◌, ◌≤◌, length, ℤ, IfOk};
ghost use Rattle.std.specs.Int.{w32};
ghost use Rattle.std.specs.Int.RustNames.{FitsSigned};
ghost use Rattle.pp_clause.specs.Assignment.{assigned};
ghost use Rattle.pp_gate.specs.Circuit.{IsCircuit, Gives};
ghost use Rattle.pp_gate.specs.Growth.{Grows};
ghost use Rattle.pp_bits.specs.Inputs.{AreInputs};
ghost use Rattle.pp_wordgate.specs.Meaning.{word_of, ChosenWord};

use crate::NoMemory;
use pp_clause::Assignment;
use pp_gate::{Circuit, Word};

/// A word of 32 new inputs, which can be chosen so that it stands for each value.
///
/// On `NoMemory` the old gates stand, and some of the inputs may be left.
pub fn unknown(circuit: &mut Circuit) -> Result<Word, NoMemory>
    requires { length circuit.old + 32 ≤ 2 ^ 30 }
    ensures grows { Grows circuit.old circuit.new 32 }
    ensures circuit { IsCircuit circuit.new }
    ensures inputs { IfOk result (λ r. AreInputs circuit.old circuit.new 32 r) }
    ensures chosen { IfOk result (λ r. (s : ℕ → Bool) → Gives s circuit.old → (v : ℤ) → FitsSigned w32 v
        → ChosenWord w32 circuit.old circuit.new s r v) }
{
    let digits = pp_bits::inputs(circuit, 32)?;
    Ok(Word::from_lits(&digits))
}

/// The value for which the word stands under an assignment.
pub fn value(assignment: &Assignment, word: Word) -> i32
    ensures { result ≡ word_of w32 (assigned assignment.now) word }
{
    let digits = pp_bits::number(assignment, word.lits());
    (digits as u32).cast_signed()
}
