//! The questions of rounds, and what they say of given arguments.

ghost use Rattle.std.specs.Prelude.{◌<◌, ◌≤◌, IfOk, OnOk, length};
ghost use Rattle.pp_checks.specs.Plan.{IsPlanOf};
ghost use Rattle.pp_program_cases.specs.Round.{CanAsk};

use crate::rounds::DEPTH;
use anyhow::{Result, ensure};
use pp_bounded::{Bounded, BoundedTree};
use pp_bounded_samples::asking::ask_all;
use pp_bounded_samples::solving::assignment;
use pp_clause::Lit;
use pp_estimate::estimate;
use pp_front::Accepted;
use pp_gate::Circuit;
use pp_limits::GATES;
use pp_prog::{CheckId, TypeTable, Value};
use pp_query::{Question, question_of};
use pp_symbolic::{Mode, NoMemory};
use std::alloc::Global;

/// The question of a round of the check, over arguments of height at most `depth`.
pub fn round_question(
    alloc: Global,
    accepted: &Accepted,
    check: CheckId,
    round: u32,
    depth: u32,
) -> Result<Question<Bounded, BoundedTree>>
    requires plan { IsPlanOf accepted.now.plan accepted.now.program }
    requires check { check.0 < length accepted.now.program.checks }
    requires round { round ≤ 12 }
    requires depth { (1 ≤ depth) × (depth ≤ 6) }
    ensures { IfOk result (CanAsk accepted.now.program.types) }
{
    let (program, plan) = (&accepted.program, &accepted.plan);
    let most = estimate(alloc, program, plan, check, round, depth)?;
    ensure!(most <= u64::from(GATES.most), "too large");
    let question = question_of::<Bounded>(alloc, program, plan, check, Mode::Real, round, depth)?;
    Ok(question)
}

/// The numbers that spell the values, as `ask_all` reads them.
pub fn spelled(alloc: Global, values: &[Value]) -> Result<Vec<i32>, NoMemory> {
    let mut numbers = Vec::new(alloc);
    push_spelled(values, &mut numbers)?;
    Ok(numbers)
}

fn push_spelled(values: &[Value], numbers: &mut Vec<i32>) -> Result<(), NoMemory> {
    for value in values {
        match value {
            Value::Int(n) => numbers.push(*n)?,
            Value::Bool(b) => numbers.push(i32::from(*b))?,
            Value::Tree(ctor, fields) => {
                numbers.push(i32::try_from(ctor.0).unwrap_or(-1))?;
                push_spelled(fields.as_slice(), numbers)?;
            }
        }
    }
    Ok(())
}

/// What `fails` is where the inputs are those of the arguments that the numbers spell; none where the circuit doesn't
/// tell.
pub fn fails_at(
    alloc: Global,
    question: &mut Question<Bounded, BoundedTree>,
    table: &TypeTable,
    numbers: &[i32],
) -> Result<Option<bool>>
    requires { CanAsk table.now question.old }
    ensures { OnOk result (CanAsk table.now question.new) }
{
    let mut asked = vec![in alloc; question.frame.circuit_ok]?;
    let mut numbers = Vec::from_slice(alloc, numbers)?;
    numbers.reverse();
    ask_all(
        &mut question.domain,
        &mut question.circuit,
        table,
        question.frame.arguments.as_slice(),
        DEPTH,
        &mut numbers,
        &mut asked,
    )?;
    let fails = value_of(alloc, &question.circuit, question.frame.fails, &mut asked)?;
    Ok(fails)
}

/// The value that the literal has wherever what is asked is true; none where it can have both, or what is asked can't
/// be true.
fn value_of(
    alloc: Global,
    circuit: &Circuit,
    lit: Lit,
    asked: &mut Vec<Lit>,
) -> Result<Option<bool>> {
    let can_be_true = can_be(alloc, circuit, lit, asked)?;
    let can_be_false = can_be(alloc, circuit, lit.negated(), asked)?;
    Ok(if can_be_true == can_be_false {
        None
    } else {
        Some(can_be_true)
    })
}

/// Whether the literal can be true together with what is asked.
fn can_be(alloc: Global, circuit: &Circuit, lit: Lit, asked: &mut Vec<Lit>) -> Result<bool> {
    asked.push(lit)?;
    let found = assignment(alloc, circuit, asked)?;
    asked.pop();
    Ok(found.is_some())
}
