//! Symbols of sorts that are no datatypes: numbers and truth values.
//!
//! A sort of numbers has an arm in each of the three calls on symbols here, and none where symbols of any sort are
//! made above: there one arm is for datatypes, and the rest comes here. They take the circuit alone, so that domains
//! can call them too, each with trees of its own. Each call asks that the sort is no datatype, so the last arms don't
//! come about.

ghost use Rattle.std.specs.Prelude.{◌≡◌, ◌+◌, ◌*◌, ◌^◌, ◌≤◌, ◌<◌, length, IfOk, IsTrue};
ghost use Rattle.pp_gate.specs.Circuit.{IsCircuit, IsOf};
ghost use Rattle.pp_gate.specs.Growth.{Grows};
ghost use Rattle.pp_bits.specs.Number.{StandsForNumber};
ghost use Rattle.pp_prog.specs.Cone.{is_word};
ghost use Rattle.pp_domain.specs.Plain.{IsAnyWord, IsBlankPlain, IsMaskedPlain, IsMaskedWord, IsUnknownPlain};
ghost use Rattle.pp_domain.specs.Plain.{plain_gates};

use crate::symbol::Symbol;
use pp_clause::{Lit, NoMemory};
use pp_gate::{Circuit, Word};
use pp_prog::Sort;

/// The word that is always 0.
pub fn blank_word(circuit: &Circuit) -> Result<Word, NoMemory>
    ensures stands { IfOk result (λ r. StandsForNumber circuit.now 32 r (λ a. 0)) }
{
    let digits = pp_bits::constant(circuit, 0, 32)?;
    Ok(Word::from_lits(&digits))
}

/// A word of inputs that can be any number where the literal is true, and is 0 where it is false.
///
/// On `NoMemory` the old gates stand, and some of the inputs and gates may be left.
pub fn masked_word(circuit: &mut Circuit, lit: Lit) -> Result<Word, NoMemory>
    requires lit { IsOf circuit.old lit }
    requires room { length circuit.old + 64 ≤ 2 ^ 30 }
    ensures grows { Grows circuit.old circuit.new 64 }
    ensures circuit { IsCircuit circuit.new }
    ensures masked { IfOk result (λ r. IsMaskedWord circuit.old circuit.new IsAnyWord lit r) }
{
    let digits = pp_bits::inputs(circuit, 32)?;
    let blank = pp_bits::constant(circuit, 0, 32)?;
    let word = pp_bits::choose(circuit, lit, &digits, &blank)?;
    Ok(Word::from_lits(&word))
}

/// A symbol of inputs, which can stand for each value of the sort, which is no datatype.
///
/// On `NoMemory` the old gates stand, and some of the inputs may be left.
pub fn unknown_plain<T>(circuit: &mut Circuit, sort: Sort) -> Result<Symbol<T>, NoMemory>
    requires plain { IsTrue (is_word sort) }
    requires room { length circuit.old + plain_gates sort ≤ 2 ^ 30 }
    ensures grows { Grows circuit.old circuit.new (plain_gates sort) }
    ensures circuit { IsCircuit circuit.new }
    ensures unknown { IfOk result (λ x. IsUnknownPlain circuit.old circuit.new sort x) }
{
    match sort {
        Sort::Int => {
            let word = pp_wordgate::unknown(circuit)?;
            Ok(Symbol::Word(word))
        }
        Sort::Bool => {
            let bit = circuit.input()?;
            Ok(Symbol::Bit(bit))
        }
        Sort::Tree(_) => unreachable!(),
    }
}

/// The symbol of the sort, which is no datatype, that is always 0 or false.
pub fn blank_plain<T>(circuit: &Circuit, sort: Sort) -> Result<Symbol<T>, NoMemory>
    requires plain { IsTrue (is_word sort) }
    ensures blank { IfOk result (λ x. IsBlankPlain circuit.now sort x) }
{
    match sort {
        Sort::Int => {
            let word = blank_word(circuit)?;
            Ok(Symbol::Word(word))
        }
        Sort::Bool => Ok(Symbol::Bit(circuit.truth().negated())),
        Sort::Tree(_) => unreachable!(),
    }
}

/// A symbol of inputs that can stand for each value of the sort, which is no datatype, where the literal is true, and
/// is 0 or false where it is false.
///
/// On `NoMemory` the old gates stand, and some of the inputs and gates may be left.
pub fn masked_plain<T>(circuit: &mut Circuit, lit: Lit, sort: Sort) -> Result<Symbol<T>, NoMemory>
    requires plain { IsTrue (is_word sort) }
    requires lit { IsOf circuit.old lit }
    requires room { length circuit.old + 2 * plain_gates sort ≤ 2 ^ 30 }
    ensures grows { Grows circuit.old circuit.new (2 * plain_gates sort) }
    ensures circuit { IsCircuit circuit.new }
    ensures masked { IfOk result (λ x. IsMaskedPlain circuit.old circuit.new lit sort x) }
{
    match sort {
        Sort::Int => {
            let word = masked_word(circuit, lit)?;
            Ok(Symbol::Word(word))
        }
        Sort::Bool => {
            let input = circuit.input()?;
            let bit = circuit.and(lit, input)?;
            Ok(Symbol::Bit(bit))
        }
        Sort::Tree(_) => unreachable!(),
    }
}
