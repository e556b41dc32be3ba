//! The steps of a guess run, performed over a domain.

ghost use Rattle.std.specs.Prelude.{◌≡◌, ◌+◌, ◌^◌, ◌≤◌, ◌&&◌, false, IfOk, length};
ghost use Rattle.pp_prog.specs.Sorts.{param_sorts};
ghost use Rattle.pp_clause.specs.Literal.{lit_value};
ghost use Rattle.pp_gate.specs.Circuit.{IsCircuit, IsOf, StandsFor};
ghost use Rattle.pp_gate.specs.Growth.{AddsGates};
ghost use Rattle.pp_compile.specs.Guessed.{guess_of};
ghost use Rattle.pp_domain.specs.Answers.{Fresh};
ghost use Rattle.pp_domain.specs.Moves.{Moves};
ghost use Rattle.pp_symbolic.specs.Guessed.{CanGuess, HaveLiterals, IsGuessed, all_bits, guess_gates};

use crate::NoMemory;
use crate::frame::Frame;
use crate::steps::literal_at;
use pp_build::build;
use pp_clause::Lit;
use pp_compile::Guess;
use pp_domain::{Domain, Symbols};
use pp_gate::Circuit;
use pp_list::Items;
use pp_prog::{Param, TypeTable};
use std::alloc::Global;

/// Performs the steps of the guess run, the arguments' first: the arguments' symbols, with the literal that is true
/// where the check fails and all that is supposed is true. In a domain that isn't exact each step's register stands for
/// its value, and heights count for nothing.
pub(crate) fn evaluate_guess<D: Domain>(
    alloc: Global,
    domain: &mut D,
    circuit: &mut Circuit,
    table: &TypeTable,
    params: &[Param],
    guess: &Guess,
) -> Result<Frame<D::Tree>, NoMemory>
    requires inexact { D.sense.exact ≡ false }
    requires fresh { Fresh D.sense table.now domain.old circuit.old }
    requires can { CanGuess table.now circuit.old (param_sorts params.now) (guess_of guess.now) }
    ensures moves { (can : CanGuess table.now circuit.old (param_sorts params.now) (guess_of guess.now))
        → Moves D.sense table.now domain.old circuit.old domain.new circuit.new
        (guess_gates table.now can.have.sorts (guess_of guess.now)) }
    ensures guessed { IfOk result (λ r.
        (can : CanGuess table.now circuit.old (param_sorts params.now) (guess_of guess.now))
        → IsGuessed D.sense table.now domain.old circuit.old (guess_of guess.now) can.have.sorts domain.new
        circuit.new r) }
{
    let mut registers = Items::new(alloc);
    build(
        alloc,
        domain,
        circuit,
        table,
        false,
        guess.steps.as_slice(),
        &mut registers,
    )?;
    let fails = literal_at(circuit, &registers, guess.fails);
    let circuit_ok = all_true(circuit, &registers, domain.ok(), guess.supposed.as_slice())?;
    let arguments = Items::from_slice(alloc, &registers.as_slice()[..params.len()])?;
    Ok(Frame {
        arguments,
        fails,
        circuit_ok,
    })
}

/// The literal that is true where the first one is and the registers with these numbers are.
fn all_true<T: Copy>(
    circuit: &mut Circuit,
    registers: &Symbols<T>,
    first: Lit,
    numbers: &[u32],
) -> Result<Lit, NoMemory>
    requires circuit { IsCircuit circuit.old }
    requires first { IsOf circuit.old first }
    requires registers { HaveLiterals circuit.old registers.now }
    requires room { length circuit.old + length numbers.now ≤ 2 ^ 30 }
    ensures adds { AddsGates circuit.old circuit.new (length numbers.now) }
    ensures stands { IfOk result (λ r. StandsFor circuit.new r
        (λ s. lit_value s first && all_bits s registers.now numbers.now)) }
{
    let mut all = first;
    for number in numbers {
        let one = literal_at(circuit, registers, *number);
        all = circuit.and(all, one)?;
    }
    Ok(all)
}
