//! The steps of a run, performed over a domain.

ghost use Rattle.std.specs.Prelude.{◌≡◌, ◌<◌, ℕ, true, IfOk, length, slice_get, Some};
ghost use Rattle.pp_prog.specs.Sorts.{param_sorts};
ghost use Rattle.pp_clause.specs.Literal.{Literal};
ghost use Rattle.pp_gate.specs.Circuit.{StandsFor};
ghost use Rattle.pp_domain.specs.declared.symbol.Symbol.TheVariants.{Bit};
ghost use Rattle.pp_domain.specs.Moves.{Moves};
ghost use Rattle.pp_symbolic.specs.Evaluated.{CanEvaluate, IsEvaluated};
ghost use Rattle.pp_symbolic.specs.Guessed.{HaveLiterals, register_bit};

use crate::NoMemory;
use crate::frame::Frame;
use pp_build::{build, open_all};
use pp_clause::Lit;
use pp_domain::{Domain, Symbol, Symbols};
use pp_gate::Circuit;
use pp_list::Items;
use pp_prog::{Param, TypeTable};
use pp_steps::Step;
use std::alloc::Global;

/// Performs the steps, which begin with the arguments: the arguments' symbols, with the literal of the step that is
/// asked for.
pub(crate) fn evaluate<D: Domain>(
    alloc: Global,
    domain: &mut D,
    circuit: &mut Circuit,
    table: &TypeTable,
    params: &[Param],
    depth: u32,
    steps: &[Step],
    asked: u32,
) -> Result<Frame<D::Tree>, NoMemory>
    requires exact { D.sense.exact ≡ true }
    requires fits { D.sense.Fits table.now domain.old circuit.old }
    requires can { (most : ℕ) × CanEvaluate table.now circuit.old (param_sorts params.now) depth steps.now asked most }
    ensures moves { (most : ℕ) → CanEvaluate table.now circuit.old (param_sorts params.now) depth steps.now asked most
        → Moves D.sense table.now domain.old circuit.old domain.new circuit.new most }
    ensures evaluated { IfOk result (λ r. (most : ℕ)
        → (can : CanEvaluate table.now circuit.old (param_sorts params.now) depth steps.now asked most)
        → IsEvaluated D.sense table.now domain.old circuit.old (param_sorts params.now) depth steps.now asked can.sorts
        domain.new circuit.new r) }
{
    let arguments = open_all(alloc, domain, circuit, table, params, depth)?;
    let mut registers = copies(alloc, &arguments)?;
    build(alloc, domain, circuit, table, true, steps, &mut registers)?;
    let fails = literal_at(circuit, &registers, asked);
    Ok(Frame {
        arguments,
        fails,
        circuit_ok: domain.ok(),
    })
}

fn copies<T: Copy>(alloc: Global, symbols: &Symbols<T>) -> Result<Symbols<T>, NoMemory>
    ensures { IfOk result (λ r. r ≡ symbols.now) }
{
    Items::from_slice(alloc, symbols.as_slice())
}

/// The literal that the register with this number is. Where there is none, it is the constant.
pub(crate) fn literal_at<T: Copy>(circuit: &Circuit, registers: &Symbols<T>, number: u32) -> Lit
    ensures own { (l : Literal) → slice_get registers.now number ≡ Some (Bit l) → result ≡ l }
    ensures stands { HaveLiterals circuit.now registers.now
        → StandsFor circuit.now result (λ s. register_bit s (slice_get registers.now number)) }
{
    match registers.as_slice().get(number as usize) {
        Some(Symbol::Bit(l)) => *l,
        _ => circuit.truth(),
    }
}
