//! How fast circuits are built: what comes out of a task of this size.
//!
//! | Task | What is done |
//! |---|---|
//! | `gates` | SIZE gates, a quarter of each kind |
//! | `shared` | the same, each asked for twice |
//! | `clauses` | the same, and their clauses |
//! | `products` | a chain of SIZE products of 32 bits |

ghost use Rattle.std.specs.Prelude.{◌≡◌, length};

use crate::Task;
use crate::chain::{add_turns, multiply};
use pp_case_line::CaseLine;
use pp_gate::{Circuit, NoMemory};
use std::alloc::Global;

/// The greatest size that is taken, of gates.
const MOST_GATES: u32 = 1 << 26;

/// The most gates of a circuit whose clauses are made.
const MOST_CLAUSED: u32 = 1 << 28;

/// The greatest number of products that is taken.
const MOST_PRODUCTS: u32 = 1 << 16;

/// Adds how many gates or clauses a task of this size makes.
pub fn push_answer(
    line: &mut CaseLine,
    alloc: Global,
    task: Task,
    size: u32,
) -> Result<(), NoMemory> {
    let mut circuit = Circuit::new(alloc)?;
    build(&mut circuit, task, size)?;
    push_count(line, task, &circuit)
}

/// Makes the circuit of a task, in one that has no gates yet.
fn build(circuit: &mut Circuit, task: Task, size: u32) -> Result<(), NoMemory>
    requires { length circuit.old ≡ 1 }
{
    match task {
        Task::Products => multiply(circuit, size.min(MOST_PRODUCTS)),
        Task::Shared => add_turns(circuit, size.min(MOST_GATES) / 4, true),
        _ => add_turns(circuit, size.min(MOST_GATES) / 4, false),
    }
}

/// Adds the number of the clauses, where the task makes them, and else that of the gates.
fn push_count(line: &mut CaseLine, task: Task, circuit: &Circuit) -> Result<(), NoMemory> {
    let gates = circuit.gates();
    match task {
        Task::Clauses if gates <= MOST_CLAUSED => {
            let clauses = circuit.clauses()?;
            line.put(clauses.len());
            line.put(" clauses");
        }
        _ => {
            line.put(gates);
            line.put(" gates");
        }
    }
    Ok(())
}
