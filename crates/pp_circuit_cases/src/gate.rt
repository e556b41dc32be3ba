//! The truth tables of a circuit's calls. A case is a call: its name and three operands, of which the first is the
//! choice of `mux` or the first of `majority`. An operand is a number below 8: twice the place of a variable among the
//! constant and three inputs, and one more for the negation. The answer has the call's values from all inputs false to
//! all true (2 where a clause is false there), the number of gates and that of clauses; and then, after the same call
//! with the operands turned round, the first as the last, the number of gates and that of the clauses of what the
//! answer stands on.
//!
//! A case with `word` in the place of a call has the 32 literals of a word as its answer, as operands: the second
//! operand, the first one thirty times, and the third.

ghost use Rattle.std.specs.Prelude.{◌≡◌, ◌<◌, ◌≤◌, ◌^◌, length, IfOk};
ghost use Rattle.pp_gate.specs.Circuit.{IsOf, IsWithin};
ghost use Rattle.pp_gate.specs.Growth.{Grows};

use crate::numbers::{at, push_all};
use crate::operator::Operator;
use pp_case_line::CaseLine;
use pp_clause::{Assignment, Clauses, Lit, NoMemory};
use pp_gate::{Circuit, Word};
use std::alloc::Global;

/// How many operands there are: the constant, three inputs and their negations.
const OPERANDS: u32 = 8;

/// The operands of a call; those of two take `a` and `b`.
#[derive(Clone, Copy)]
struct Operands {
    c: Lit,
    a: Lit,
    b: Lit,
}

/// Adds the answer to a case on these operands.
pub fn push_answer(
    line: &mut CaseLine,
    alloc: Global,
    operator: Operator,
    numbers: &[u32],
) -> Result<(), NoMemory> {
    let on = Operands {
        c: literal(at(numbers, 0)),
        a: literal(at(numbers, 1)),
        b: literal(at(numbers, 2)),
    };
    match operator {
        Operator::Word => {
            push_word(line, on);
            Ok(())
        }
        _ => push_table(line, alloc, operator, on),
    }
}

/// The literal of an operand's number. A greater number stands for the same as its lowest digits.
fn literal(number: u32) -> Lit
    ensures { IsWithin 4 result }
{
    let operand = number % OPERANDS;
    Lit::new(operand / 2 + 1, operand % 2 == 0)
}

/// Adds the literals of the word whose lowest is `a` and whose highest is `b`; the others are `c`.
fn push_word(line: &mut CaseLine, on: Operands) {
    let mut lits = [on.c; 32];
    lits[0] = on.a;
    lits[31] = on.b;
    let word = Word::of(lits);
    if Word::from_lits(word.lits()) != word {
        line.put(" another word");
        return;
    }
    for place in 0..32u32 {
        push_all(line, &[operand(word.bit(place))]);
    }
}

/// The number of a literal.
fn operand(lit: Lit) -> u32 {
    2 * (lit.var() - 1) + u32::from(!lit.is_positive())
}

/// Adds the table of the call of this operator.
fn push_table(
    line: &mut CaseLine,
    alloc: Global,
    operator: Operator,
    on: Operands,
) -> Result<(), NoMemory>
    requires choice { IsWithin 4 on.c }
    requires left { IsWithin 4 on.a }
    requires right { IsWithin 4 on.b }
{
    let mut circuit = Circuit::new(alloc)?;
    let _inputs = pp_bits::inputs(&mut circuit, 3)?;
    push_calls(line, &mut circuit, operator, on)
}

/// Adds what the call answers, and what it leaves when it is made with the operands turned round.
fn push_calls(
    line: &mut CaseLine,
    circuit: &mut Circuit,
    operator: Operator,
    on: Operands,
) -> Result<(), NoMemory>
    requires inputs { length circuit.old ≡ 4 }
    requires choice { IsWithin 4 on.c }
    requires left { IsWithin 4 on.a }
    requires right { IsWithin 4 on.b }
{
    let turned = Operands {
        c: on.a,
        a: on.b,
        b: on.c,
    };
    let answer = apply(circuit, operator, on)?;
    push_values(line, circuit, answer)?;
    let _turned = apply(circuit, operator, turned)?;
    push_asked(line, circuit, answer)
}

/// Adds the number of gates, and that of the clauses of what an answer stands on.
fn push_asked(line: &mut CaseLine, circuit: &Circuit, answer: Lit) -> Result<(), NoMemory>
    requires room { length circuit.now ≤ 6 }
    requires of { IsOf circuit.now answer }
{
    let asked = circuit.clauses_of(&[answer])?;
    line.put(", turned ");
    line.put(circuit.gates());
    line.put(", asked ");
    line.put(asked.len());
    Ok(())
}

/// The literal that the call of this operator answers.
fn apply(circuit: &mut Circuit, operator: Operator, on: Operands) -> Result<Lit, NoMemory>
    requires room { length circuit.old < 2 ^ 30 }
    requires choice { IsOf circuit.old on.c }
    requires left { IsOf circuit.old on.a }
    requires right { IsOf circuit.old on.b }
    ensures grows { Grows circuit.old circuit.new 1 }
    ensures of { IfOk result (λ r. IsOf circuit.new r) }
{
    match operator {
        Operator::And => circuit.and(on.a, on.b),
        Operator::Or => circuit.or(on.a, on.b),
        Operator::Xor => circuit.xor(on.a, on.b),
        Operator::Mux => circuit.mux(on.c, on.a, on.b),
        _ => circuit.majority(on.c, on.a, on.b),
    }
}

/// Adds the values of an answer, the number of gates and that of their clauses.
fn push_values(line: &mut CaseLine, circuit: &Circuit, answer: Lit) -> Result<(), NoMemory>
    requires { length circuit.now ≤ 5 }
{
    let clauses = circuit.clauses()?;
    for inputs in 0..8u32 {
        line.put(" ");
        line.put(value(circuit, &clauses, answer, inputs)?);
    }
    line.put(", ");
    line.put(circuit.gates());
    line.put(" gates, ");
    line.put(clauses.len());
    line.put(" clauses");
    Ok(())
}

/// The value of a literal where the inputs have the lowest three bits as their values, and 2 where a clause is false.
fn value(circuit: &Circuit, clauses: &Clauses, lit: Lit, inputs: u32) -> Result<u32, NoMemory> {
    let all = completed(circuit, inputs)?;
    let is_true = all.value(lit.var()) == lit.is_positive();
    Ok(if clauses.holds(&all) {
        u32::from(is_true)
    } else {
        2
    })
}

/// The values of all gates where the inputs have the lowest three bits as their values.
fn completed(circuit: &Circuit, inputs: u32) -> Result<Assignment, NoMemory> {
    let values = [
        true,
        inputs & 1 == 1,
        inputs >> 1 & 1 == 1,
        inputs >> 2 & 1 == 1,
    ];
    let given = Assignment::of(circuit.allocator(), &values)?;
    circuit.complete(&given)
}
