//! The calls of `pp_wordgate` and `pp_wordscale` by their operators.

ghost use Rattle.std.specs.Prelude.{◌+◌, ◌≤◌, ◌^◌, All, length, IfOk};
ghost use Rattle.pp_gate.specs.Circuit.{IsOf};
ghost use Rattle.pp_gate.specs.Growth.{Grows};

use crate::calls::{Call, Count, Known, completed};
use crate::operator::Operator;
use pp_clause::Lit;
use pp_gate::{Circuit, NoMemory, Word};
use pp_wordgate::{
    add, and, choose, constant, equal, less, neg, not, or, sub, unknown, value, xor,
};
use pp_wordscale::{div, mul, rem, shl, shr, ushr};

/// What the call comes to in a circuit that has no gates yet.
pub fn counted(circuit: &mut Circuit, call: &Call, known: Known) -> Result<Count, NoMemory>
    requires width { call.now.width ≤ 32 }
    requires new { length circuit.old ≤ 1 }
{
    let a = operand(circuit, call.x, known.x)?;
    let b = operand(circuit, call.y, known.y)?;
    counted_on(circuit, call, known, a, b)
}

/// The word of an operand.
fn operand(circuit: &mut Circuit, number: u32, known: bool) -> Result<Word, NoMemory>
    requires { length circuit.old + 32 ≤ 2 ^ 30 }
    ensures grows { Grows circuit.old circuit.new 32 }
    ensures of { IfOk result (λ r. All (IsOf circuit.new) r) }
{
    if known {
        constant(circuit, number.cast_signed())
    } else {
        unknown(circuit)
    }
}

/// What the call on these words comes to.
fn counted_on(
    circuit: &mut Circuit,
    call: &Call,
    known: Known,
    a: Word,
    b: Word,
) -> Result<Count, NoMemory>
    requires width { call.now.width ≤ 32 }
    requires room { length circuit.old ≤ 65 }
    requires left { All (IsOf circuit.old) a }
    requires right { All (IsOf circuit.old) b }
{
    let start = circuit.gates();
    let answer = apply(circuit, call.operator, a, b)?;
    let once = circuit.gates();
    let _again = apply(circuit, call.operator, a, b)?;
    let twice = circuit.gates();
    let _swapped = apply(circuit, call.operator, b, a)?;
    let all = completed(circuit, call, known)?;
    Ok(Count {
        first: once.saturating_sub(start),
        again: twice.saturating_sub(once),
        swapped: circuit.gates().saturating_sub(twice),
        value: i128::from(value(&all, answer)),
    })
}

/// What the call of this operator answers.
fn apply(circuit: &mut Circuit, operator: Operator, a: Word, b: Word) -> Result<Word, NoMemory>
    requires room { length circuit.old + 16384 ≤ 2 ^ 30 }
    requires left { All (IsOf circuit.old) a }
    requires right { All (IsOf circuit.old) b }
    ensures { Grows circuit.old circuit.new 16384 }
{
    match operator {
        Operator::Add => add(circuit, a, b),
        Operator::Sub => sub(circuit, a, b),
        Operator::Neg => neg(circuit, a),
        Operator::Mul => mul(circuit, a, b),
        Operator::Divide => div(circuit, a, b),
        Operator::Rem => rem(circuit, a, b),
        Operator::Less | Operator::Equal | Operator::Lesser => comparison(circuit, operator, a, b),
        _ => by_places(circuit, operator, a, b),
    }
}

/// What the call of this operator makes of the digits by their places.
fn by_places(circuit: &mut Circuit, operator: Operator, a: Word, b: Word) -> Result<Word, NoMemory>
    requires room { length circuit.old + 512 ≤ 2 ^ 30 }
    requires left { All (IsOf circuit.old) a }
    requires right { All (IsOf circuit.old) b }
    ensures { Grows circuit.old circuit.new 512 }
{
    match operator {
        Operator::And => and(circuit, a, b),
        Operator::Or => or(circuit, a, b),
        Operator::Xor => xor(circuit, a, b),
        Operator::Not => not(circuit, a),
        Operator::Shl => shl(circuit, a, b),
        Operator::Shr => shr(circuit, a, b),
        _ => ushr(circuit, a, b),
    }
}

/// The lesser of the words, or 1 where they compare so, and else 0.
fn comparison(circuit: &mut Circuit, operator: Operator, a: Word, b: Word) -> Result<Word, NoMemory>
    requires room { length circuit.old + 288 ≤ 2 ^ 30 }
    requires left { All (IsOf circuit.old) a }
    requires right { All (IsOf circuit.old) b }
    ensures { Grows circuit.old circuit.new 288 }
{
    let holds = compare(circuit, operator, a, b)?;
    match operator {
        Operator::Lesser => choose(circuit, holds, a, b),
        _ => number(circuit, holds),
    }
}

/// Whether the words are equal, or the first is below the second.
fn compare(circuit: &mut Circuit, operator: Operator, a: Word, b: Word) -> Result<Lit, NoMemory>
    requires room { length circuit.old + 256 ≤ 2 ^ 30 }
    requires left { All (IsOf circuit.old) a }
    requires right { All (IsOf circuit.old) b }
    ensures grows { Grows circuit.old circuit.new 256 }
    ensures of { IfOk result (λ r. IsOf circuit.new r) }
{
    match operator {
        Operator::Equal => equal(circuit, a, b),
        _ => less(circuit, a, b),
    }
}

/// 1 where the literal is true, and else 0.
fn number(circuit: &mut Circuit, lit: Lit) -> Result<Word, NoMemory>
    requires room { length circuit.old + 32 ≤ 2 ^ 30 }
    requires of { IsOf circuit.old lit }
    ensures { Grows circuit.old circuit.new 32 }
{
    let one = constant(circuit, 1)?;
    let zero = constant(circuit, 0)?;
    choose(circuit, lit, one, zero)
}
