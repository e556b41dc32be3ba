//! The calls of `pp_bits`, `pp_products` and `pp_shifts` by their operators.

ghost use Rattle.std.specs.Prelude.{◌≡◌, ◌+◌, ◌*◌, ◌≤◌, ◌^◌, All, length, IfOk};
ghost use Rattle.pp_gate.specs.Circuit.{IsOf};
ghost use Rattle.pp_gate.specs.Growth.{Grows};

use crate::calls::{Call, Count, Known, completed};
use crate::operator::Operator;
use pp_bits::{
    add, add_carry, and, choose, constant, equal, inputs, invert, less, less_signed, neg, number,
    or, sub, sub_borrow, xor,
};
use pp_clause::{Assignment, Lit};
use pp_gate::{Circuit, NoMemory};
use pp_products::{divide, mul};
use pp_shifts::{shl, shr, sign, ushr};

/// What the call comes to in a circuit that has no gates yet.
pub fn counted(circuit: &mut Circuit, call: &Call, known: Known) -> Result<Count, NoMemory>
    requires width { call.now.width ≤ 32 }
    requires new { length circuit.old ≤ 1 }
{
    let a = operand(circuit, call.width, call.x, known.x)?;
    let b = operand(circuit, call.width, call.y, known.y)?;
    counted_on(circuit, call, known, &a, &b)
}

/// The digits of an operand.
fn operand(
    circuit: &mut Circuit,
    width: u32,
    number: u32,
    known: bool,
) -> Result<Vec<Lit>, NoMemory>
    requires { length circuit.old + width ≤ 2 ^ 30 }
    ensures grows { Grows circuit.old circuit.new width }
    ensures len { IfOk result (λ r. length r.items ≡ width) }
    ensures of { IfOk result (λ r. All (IsOf circuit.new) r.items) }
{
    if known {
        constant(circuit, u64::from(number), width as usize)
    } else {
        inputs(circuit, width as usize)
    }
}

/// What the call on these digits comes to.
fn counted_on(
    circuit: &mut Circuit,
    call: &Call,
    known: Known,
    a: &[Lit],
    b: &[Lit],
) -> Result<Count, NoMemory>
    requires width { call.now.width ≤ 32 }
    requires digits { length a.now ≤ 32 }
    requires same { length a.now ≡ length b.now }
    requires left { All (IsOf circuit.old) a.now }
    requires right { All (IsOf circuit.old) b.now }
    requires room { length circuit.old + 8192 ≤ 2 ^ 30 }
{
    let start = circuit.gates();
    let answer = apply(circuit, call.operator, a, b)?;
    let first = circuit.gates().saturating_sub(start);
    let all = completed(circuit, call, known)?;
    Ok(Count {
        first,
        again: 0,
        swapped: 0,
        value: value_of(&all, &answer),
    })
}

/// The number of an answer, and -1 where it has more digits than 64.
fn value_of(all: &Assignment, answer: &[Lit]) -> i128 {
    if answer.len() > 64 {
        return -1;
    }
    i128::from(number(all, answer))
}

/// The literals that the call of this operator answers; of two answers the second stands above the first.
#[tactic(auto, using(crate::proofs::Budgets::product_fits))]
fn apply(
    circuit: &mut Circuit,
    operator: Operator,
    a: &[Lit],
    b: &[Lit],
) -> Result<Vec<Lit>, NoMemory>
    requires digits { length a.now ≤ 32 }
    requires same { length a.now ≡ length b.now }
    requires left { All (IsOf circuit.old) a.now }
    requires right { All (IsOf circuit.old) b.now }
    requires room { length circuit.old + 8192 ≤ 2 ^ 30 }
{
    match operator {
        Operator::Add => add(circuit, a, b),
        Operator::Sub => sub(circuit, a, b),
        Operator::Neg => neg(circuit, a),
        Operator::Mul => mul(circuit, a, b),
        Operator::Divide => quotient_and_remainder(circuit, a, b),
        Operator::AddCarry | Operator::SubBorrow => with_carry(circuit, operator, a, b),
        Operator::Equal | Operator::Less | Operator::LessSigned => comparison(
            circuit, operator, a, b,
        ),
        _ => by_places(circuit, operator, a, b),
    }
}

/// What the call of this operator makes of the digits by their places.
#[tactic(auto, using(crate::proofs::Budgets::shift_fits))]
fn by_places(
    circuit: &mut Circuit,
    operator: Operator,
    a: &[Lit],
    b: &[Lit],
) -> Result<Vec<Lit>, NoMemory>
    requires digits { length a.now ≤ 32 }
    requires same { length a.now ≡ length b.now }
    requires left { All (IsOf circuit.old) a.now }
    requires right { All (IsOf circuit.old) b.now }
    requires room { length circuit.old + 8192 ≤ 2 ^ 30 }
{
    match operator {
        Operator::And => and(circuit, a, b),
        Operator::Or => or(circuit, a, b),
        Operator::Xor => xor(circuit, a, b),
        Operator::Not => invert(circuit, a),
        Operator::Choose => chosen(circuit, a, b),
        Operator::Shl => shl(circuit, a, b),
        Operator::Shr => shr(circuit, a, b),
        _ => ushr(circuit, a, b),
    }
}

/// `a` where the highest digit of `b` is 1, and else its digits negated.
fn chosen(circuit: &mut Circuit, a: &[Lit], b: &[Lit]) -> Result<Vec<Lit>, NoMemory>
    requires left { All (IsOf circuit.old) a.now }
    requires right { All (IsOf circuit.old) b.now }
    requires room { length circuit.old + length a.now ≤ 2 ^ 30 }
{
    let inverted = invert(circuit, a)?;
    let choice = sign(circuit, b);
    choose(circuit, choice, a, &inverted)
}

/// The sum with its carry as one digit more, or the difference with what it borrows.
fn with_carry(
    circuit: &mut Circuit,
    operator: Operator,
    a: &[Lit],
    b: &[Lit],
) -> Result<Vec<Lit>, NoMemory>
    requires same { length a.now ≡ length b.now }
    requires left { All (IsOf circuit.old) a.now }
    requires right { All (IsOf circuit.old) b.now }
    requires room { length circuit.old + 3 * length a.now ≤ 2 ^ 30 }
{
    match operator {
        Operator::AddCarry => {
            let none = circuit.truth().negated();
            joined(add_carry(circuit, a, b, none)?)
        }
        _ => joined(sub_borrow(circuit, a, b)?),
    }
}

/// Digits, and one more above them.
fn joined(parts: (Vec<Lit>, Lit)) -> Result<Vec<Lit>, NoMemory> {
    let (mut digits, more) = parts;
    digits.push(more)?;
    Ok(digits)
}

/// The quotient, with the remainder above it.
#[tactic(auto, using(crate::proofs::Budgets::quotient_fits))]
fn quotient_and_remainder(circuit: &mut Circuit, a: &[Lit], d: &[Lit]) -> Result<Vec<Lit>, NoMemory>
    requires digits { length a.now ≤ 32 }
    requires same { length a.now ≡ length d.now }
    requires left { All (IsOf circuit.old) a.now }
    requires right { All (IsOf circuit.old) d.now }
    requires room { length circuit.old + 8192 ≤ 2 ^ 30 }
{
    let (mut digits, rest) = divide(circuit, a, d)?;
    digits.extend_from_slice(&rest)?;
    Ok(digits)
}

/// Whether the numbers compare so, as one digit.
fn comparison(
    circuit: &mut Circuit,
    operator: Operator,
    a: &[Lit],
    b: &[Lit],
) -> Result<Vec<Lit>, NoMemory>
    requires digits { length a.now ≤ 32 }
    requires same { length a.now ≡ length b.now }
    requires left { All (IsOf circuit.old) a.now }
    requires right { All (IsOf circuit.old) b.now }
    requires room { length circuit.old + 8192 ≤ 2 ^ 30 }
{
    let holds = compare(circuit, operator, a, b)?;
    Vec::from_slice(circuit.allocator(), &[holds])
}

/// Whether the numbers are equal, the first is below the second, or that of them as integers in two's complement, of
/// which those of no digits are equal.
fn compare(circuit: &mut Circuit, operator: Operator, a: &[Lit], b: &[Lit]) -> Result<Lit, NoMemory>
    requires digits { length a.now ≤ 32 }
    requires same { length a.now ≡ length b.now }
    requires left { All (IsOf circuit.old) a.now }
    requires right { All (IsOf circuit.old) b.now }
    requires room { length circuit.old + 8192 ≤ 2 ^ 30 }
{
    match operator {
        Operator::Equal => equal(circuit, a, b),
        Operator::Less => less(circuit, a, b),
        _ if a.is_empty() => Ok(circuit.truth().negated()),
        _ => less_signed(circuit, a, b),
    }
}
