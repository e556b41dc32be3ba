//! Constants and choices.

ghost use Rattle.std.specs.Prelude.{◌≡◌, ◌+◌, ◌^◌, ◌≤◌, if◌then◌else◌, All, length, IfOk};
ghost use Rattle.pp_clause.specs.Literal.{lit_value};
ghost use Rattle.std.specs.Int.{w32};
ghost use Rattle.pp_gate.specs.Circuit.{IsOf};
ghost use Rattle.pp_gate.specs.Growth.{AddsGates};
ghost use Rattle.pp_wordgate.specs.Meaning.{word_of, StandsForWord};

use crate::NoMemory;
use pp_clause::Lit;
use pp_gate::{Circuit, Word};

/// The word that stands for the value under each assignment that gives each gate its value. It adds no gate.
///
/// On `NoMemory` nothing has changed.
pub fn constant(circuit: &mut Circuit, value: i32) -> Result<Word, NoMemory>
    ensures same { circuit.new ≡ circuit.old }
    ensures adds { AddsGates circuit.old circuit.new 0 }
    ensures stands { IfOk result (λ r. StandsForWord w32 circuit.new r (λ s. value)) }
{
    let digits = pp_bits::constant(circuit, u64::from(value.cast_unsigned()), 32)?;
    Ok(Word::from_lits(&digits))
}

/// `a` where the choice is true, and else `b`: at most 32 gates.
///
/// On `NoMemory` the old gates stand, and some new ones may be left.
pub fn choose(circuit: &mut Circuit, choice: Lit, a: Word, b: Word) -> Result<Word, NoMemory>
    requires room { length circuit.old + 32 ≤ 2 ^ 30 }
    requires choice { IsOf circuit.old choice }
    requires left { All (IsOf circuit.old) a }
    requires right { All (IsOf circuit.old) b }
    ensures adds { AddsGates circuit.old circuit.new 32 }
    ensures stands { IfOk result (λ r. StandsForWord w32 circuit.new r
        (λ s. if lit_value s choice then word_of w32 s a else word_of w32 s b)) }
{
    let digits = pp_bits::choose(circuit, choice, a.lits(), b.lits())?;
    Ok(Word::from_lits(&digits))
}
