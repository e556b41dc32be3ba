//! Operators with one operand.

ghost use Rattle.std.specs.Prelude.{◌≡◌, ℕ, Bool, ◌+◌, ◌^◌, ◌≤◌, true, All, length, IfOk};
ghost use Rattle.std.specs.Int.{w32};
ghost use Rattle.pp_prog.specs.declared.value.Value.TheVariants.{Int};
ghost use Rattle.pp_gate.specs.Circuit.{IsOf};
ghost use Rattle.pp_gate.specs.Growth.{AddsGates};
ghost use Rattle.pp_wordgate.specs.Meaning.{word_of};
ghost use Rattle.pp_domain.specs.Moves.{Moves};
ghost use Rattle.pp_eval.specs.Operators as eval;
ghost use Rattle.pp_operators.specs.Gates.{unary_gates};
ghost use Rattle.pp_build_operators.specs.Operated.{CanApply, IsUnary};
ghost use Rattle.pp_build_operators.specs.Plain.{IsNumberOf};

use pp_clause::NoMemory;
use pp_domain::{Domain, Symbol};
use pp_gate::{Circuit, Word};
use pp_prog::{TypeTable, UnaryOp};

/// What the operator makes of the symbol. The domain stays as it was.
pub fn unary<D: Domain>(
    domain: &mut D,
    circuit: &mut Circuit,
    table: &TypeTable,
    op: UnaryOp,
    x: &Symbol<D::Tree>,
) -> Result<Symbol<D::Tree>, NoMemory>
    requires fits { D.sense.Fits table.now domain.old circuit.old }
    requires sorted { CanApply D.sense op domain.old circuit.old x.now }
    requires room { length circuit.old + unary_gates op ≤ 2 ^ 30 }
    ensures moves { Moves D.sense table.now domain.old circuit.old domain.new circuit.new (unary_gates op) }
    ensures same { domain.new ≡ domain.old }
    ensures answer { IfOk result (λ r. IsUnary D.sense table.now op domain.old circuit.old domain.new circuit.new
        x.now r) }
{
    match x {
        Symbol::Word(a) => {
            let word = of_number(circuit, op, *a)?;
            Ok(Symbol::Word(word))
        }
        Symbol::Bit(a) => Ok(Symbol::Bit(a.negated())),
        Symbol::Tree(_) => unreachable!(),
    }
}

/// An operator on a number, and 0 where it is none.
fn of_number(circuit: &mut Circuit, op: UnaryOp, a: Word) -> Result<Word, NoMemory>
    requires of { All (IsOf circuit.old) a }
    requires room { length circuit.old + unary_gates op ≤ 2 ^ 30 }
    ensures adds { AddsGates circuit.old circuit.new (unary_gates op) }
    ensures stands { IfOk result (λ r. IsNumberOf circuit.new r (λ s. eval.unary op (Int (word_of w32 s a)))) }
{
    match op {
        UnaryOp::Neg => {
            let word = pp_wordgate::neg(circuit, a)?;
            Ok(word)
        }
        UnaryOp::Flip => {
            let word = pp_wordgate::not(circuit, a)?;
            Ok(word)
        }
        UnaryOp::Not => Ok(pp_wordgate::constant(circuit, 0)?),
    }
}
