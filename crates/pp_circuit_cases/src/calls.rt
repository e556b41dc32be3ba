//! Gates and values of the calls on numbers: those of `pp_bits`, `pp_products` and `pp_shifts` on numbers of so many
//! digits, and those of `pp_wordgate` and `pp_wordscale` on words. A case is a call, for the first a number of digits,
//! and two numbers. The answer has the value that the call's answer stands for, and the gates that the call adds: over
//! fresh inputs, where the second number is a constant, where the first is, and where both are (-1 where the value is
//! another). Of a call on words it also has how many gates are added when the call is made a second time, and then with
//! its operands swapped, over fresh inputs.

mod digits;
mod words;

ghost use Rattle.std.specs.Prelude.{◌≤◌};

use crate::numbers::at;
use crate::operator::Operator;
use pp_case_line::CaseLine;
use pp_clause::{Assignment, NoMemory};
use pp_gate::Circuit;
use std::alloc::Global;

/// The greatest number of digits that is taken.
const MOST_DIGITS: u32 = 32;

/// A call on two numbers of so many digits.
#[derive(Clone, Copy)]
struct Call {
    operator: Operator,
    on_words: bool,
    width: u32,
    x: u32,
    y: u32,
}

/// Which of the numbers are constants of the circuit. The others stand on fresh inputs.
#[derive(Clone, Copy)]
struct Known {
    x: bool,
    y: bool,
}

/// The second number alone, the first alone, and both.
const KNOWN: [Known; 3] = [
    Known { x: false, y: true },
    Known { x: true, y: false },
    Known { x: true, y: true },
];

/// The gates that a call adds, that it adds a second time, and that it adds then with its operands swapped, and the
/// value of its answer.
#[derive(Clone, Copy)]
struct Count {
    first: u32,
    again: u32,
    swapped: u32,
    value: i128,
}

/// Adds the answer to a call on so many digits: the first number, and two.
pub fn push_on_digits(
    line: &mut CaseLine,
    alloc: Global,
    operator: Operator,
    numbers: &[u32],
) -> Result<(), NoMemory> {
    let call = Call {
        operator,
        on_words: false,
        width: at(numbers, 0).min(MOST_DIGITS),
        x: at(numbers, 1),
        y: at(numbers, 2),
    };
    push_counts(line, alloc, &call)
}

/// Adds the answer to a call on two words.
pub fn push_on_words(
    line: &mut CaseLine,
    alloc: Global,
    operator: Operator,
    numbers: &[u32],
) -> Result<(), NoMemory> {
    let call = Call {
        operator,
        on_words: true,
        width: MOST_DIGITS,
        x: at(numbers, 0),
        y: at(numbers, 1),
    };
    push_counts(line, alloc, &call)
}

/// Adds what is counted of a call over fresh inputs and constants.
fn push_counts(line: &mut CaseLine, alloc: Global, call: &Call) -> Result<(), NoMemory>
    requires { call.now.width ≤ 32 }
{
    let fresh = counted(alloc, call, Known { x: false, y: false })?;
    push_fresh(line, &fresh);
    for known in &KNOWN {
        push_gates(line, &counted(alloc, call, *known)?, fresh.value);
    }
    if call.on_words {
        push_repeated(line, &fresh);
    }
    Ok(())
}

/// Adds the value and the gates over fresh inputs.
fn push_fresh(line: &mut CaseLine, count: &Count) {
    line.put(" ");
    line.put(count.value);
    line.put(", ");
    line.put(count.first);
    line.put(" gates");
}

/// Adds the gates of a call, and -1 where its answer hasn't this value.
fn push_gates(line: &mut CaseLine, count: &Count, value: i128) {
    line.put(", ");
    if count.value == value {
        line.put(count.first);
    } else {
        line.put(-1);
    }
}

/// Adds the gates of a second call, and of one with its operands swapped.
fn push_repeated(line: &mut CaseLine, count: &Count) {
    line.put(", again ");
    line.put(count.again);
    line.put(", swapped ");
    line.put(count.swapped);
}

/// What the call comes to in a circuit of its own.
fn counted(alloc: Global, call: &Call, known: Known) -> Result<Count, NoMemory>
    requires { call.now.width ≤ 32 }
{
    let mut circuit = Circuit::new(alloc)?;
    if call.on_words {
        words::counted(&mut circuit, call, known)
    } else {
        digits::counted(&mut circuit, call, known)
    }
}

/// The values of all gates, where the constant is true and the inputs have the numbers that aren't known.
fn completed(circuit: &Circuit, call: &Call, known: Known) -> Result<Assignment, NoMemory>
    requires { call.now.width ≤ 32 }
{
    let numbers = inputs(call, known);
    let mut values = [true; 65];
    for place in 0..64u32 {
        values[place as usize + 1] = numbers >> place & 1 == 1;
    }
    circuit.complete(&Assignment::of(circuit.allocator(), &values)?)
}

/// The digits of the numbers that aren't known, the first in the lowest places.
fn inputs(call: &Call, known: Known) -> u64
    requires { call.now.width ≤ 32 }
{
    let y = u64::from(call.y);
    if known.x {
        y
    } else {
        u64::from(call.x) | y << call.width
    }
}
