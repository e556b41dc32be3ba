//! Steps that are performed, one after another.

ghost use Rattle.std.specs.Prelude.{◌≡◌, ℕ, true, length, IfOk, OnOk};
ghost use Rattle.pp_domain.specs.Moves.{Moves};
ghost use Rattle.pp_build.specs.Built.{CanBuild, IsBuilt};
ghost use Rattle.pp_build.specs.Performed.{CanPerform, Leaves, Performs};
ghost use Rattle.pp_build.specs.Words.{AreWords, KeepsDomain};

use crate::NoMemory;
use crate::choice::choose;
use crate::registers::{constant, literal, register};
use crate::trees::{construct, ctor_field, has_ctor, only_field};
use pp_domain::{Domain, Symbol, Symbols};
use pp_gate::Circuit;
use pp_prog::{Sort, TypeTable};
use pp_steps::Step;
use std::alloc::Global;

/// Performs the steps behind those that have registers, and adds theirs. The only error is want of memory. Where no
/// step is of a datatype, the domain stays as it was.
pub fn build<D: Domain>(
    alloc: Global,
    domain: &mut D,
    circuit: &mut Circuit,
    table: &TypeTable,
    exact: bool,
    steps: &[Step],
    registers: &mut Symbols<D::Tree>,
) -> Result<(), NoMemory>
    requires exact { exact ≡ D.sense.exact }
    requires fits { D.sense.Fits table.now domain.old circuit.old }
    requires can { (most : ℕ) × CanBuild D.sense table.now domain.old circuit.old steps.now registers.old most }
    ensures moves { (most : ℕ) → CanBuild D.sense table.now domain.old circuit.old steps.now registers.old most
        → Moves D.sense table.now domain.old circuit.old domain.new circuit.new most }
    ensures words { (most : ℕ)
        → (can : CanBuild D.sense table.now domain.old circuit.old steps.now registers.old most)
        → AreWords can.sorts (length steps.now) → domain.new ≡ domain.old }
    ensures built { OnOk result ((most : ℕ)
        → (can : CanBuild D.sense table.now domain.old circuit.old steps.now registers.old most)
        → IsBuilt D.sense table.now domain.old circuit.old steps.now registers.old can.sorts can.heights
        domain.new circuit.new registers.new) }
{
    for number in registers.len()..steps.len() {
        let symbol = perform(
            alloc,
            domain,
            circuit,
            table,
            exact,
            registers,
            &steps[number],
        )?;
        registers.push(symbol)?;
    }
    Ok(())
}

/// One step, behind those that have registers.
fn perform<D: Domain>(
    alloc: Global,
    domain: &mut D,
    circuit: &mut Circuit,
    table: &TypeTable,
    exact: bool,
    registers: &Symbols<D::Tree>,
    step: &Step,
) -> Result<Symbol<D::Tree>, NoMemory>
    requires exact { exact ≡ D.sense.exact }
    requires fits { D.sense.Fits table.now domain.old circuit.old }
    requires can { CanPerform D.sense table.now domain.old circuit.old registers.now step.now }
    ensures moves { Leaves D.sense table.now domain.old circuit.old registers.now step.now domain.new circuit.new }
    ensures words { KeepsDomain D.sense table.now domain.old circuit.old registers.now step.now domain.new }
    ensures performs { IfOk result (λ r. Performs D.sense table.now domain.old circuit.old registers.now step.now
        domain.new circuit.new r) }
{
    match step {
        Step::Open(sort) => {
            let symbol = pp_domain::unknown(domain, circuit, table, *sort, 0)?;
            Ok(symbol)
        }
        Step::HasAnswer(_) => {
            let has = pp_domain::unknown(domain, circuit, table, Sort::Bool, 0)?;
            Ok(has)
        }
        Step::Answer(call) => {
            let answer = pp_domain::unknown(domain, circuit, table, call.result, 0)?;
            Ok(answer)
        }
        Step::Int(n) => {
            let word = pp_wordgate::constant(circuit, *n)?;
            Ok(Symbol::Word(word))
        }
        Step::Bool(b) => Ok(Symbol::Bit(constant(circuit, *b))),
        Step::Not(a) => {
            let bit = literal(circuit, registers, *a);
            Ok(Symbol::Bit(bit.negated()))
        }
        Step::Both(a, b) => {
            let left = literal(circuit, registers, *a);
            let right = literal(circuit, registers, *b);
            let both = circuit.and(left, right)?;
            Ok(Symbol::Bit(both))
        }
        Step::Choose(c, a, b) => {
            let chosen = choose(domain, circuit, table, registers, *c, *a, *b)?;
            Ok(chosen)
        }
        Step::Unary(op, a) => {
            let operand = register(registers, *a);
            let made = pp_build_operators::unary(domain, circuit, table, *op, &operand)?;
            Ok(made)
        }
        Step::Binary(op, a, b) => {
            let left = register(registers, *a);
            let right = register(registers, *b);
            let made = pp_build_operators::binary(domain, circuit, table, *op, &left, &right)?;
            Ok(made)
        }
        Step::Construct(ctor, fields) => {
            let tree = construct(
                alloc,
                domain,
                circuit,
                table,
                registers,
                *ctor,
                fields.as_slice(),
            )?;
            Ok(tree)
        }
        Step::IsCtor(ctor, count, a) => {
            let has = has_ctor(domain, circuit, table, registers, *ctor, *count, *a)?;
            Ok(has)
        }
        Step::CtorField(ctor, place, a) => {
            let field = ctor_field(domain, circuit, table, registers, *ctor, *place, *a)?;
            Ok(field)
        }
        Step::Field(a, place) => {
            let field = only_field(domain, circuit, table, registers, *a, *place)?;
            Ok(field)
        }
        // it is asked of values of one sort alone
        Step::IsAlike(_, _) => Ok(Symbol::Bit(circuit.truth())),
        Step::GoesDown(a, b) => {
            let new = register(registers, *a);
            let old = register(registers, *b);
            let down = pp_build_operators::goes_down(domain, circuit, table, exact, &new, &old)?;
            Ok(down)
        }
    }
}
