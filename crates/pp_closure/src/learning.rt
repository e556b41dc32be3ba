//! What each step says.

ghost use Rattle.std.specs.Prelude.{◌≡◌, OnOk, Some, slice_get};
ghost use Rattle.pp_steps.specs.declared.step.Step.TheVariants as steps;
ghost use Rattle.pp_closure.specs.Keeps.{Keeps};

use crate::NoMemory;
use crate::additions::learn_addition;
use crate::alike::learn_alike;
use crate::bounds::{learn_bounds, learn_number, learn_remainder};
use crate::class::Shape;
use crate::descents::learn_descent;
use crate::equality::learn_equality;
use crate::facts::Facts;
use crate::offsets::learn_offsets;
use crate::orders::{learn_order, order_of};
use crate::reduced::{learn_common_bits, learn_quotient, learn_shifted, learn_shifted_unsigned};
use crate::seen::Seen;
use crate::trees::{learn_construct, learn_field, learn_test};
use crate::truths::{learn_both, learn_choice, learn_not};
use crate::wholes::learn_wholes;
use pp_prog::{BinaryOp, UnaryOp};
use pp_steps::Step;
use std::alloc::Global;

/// What the step with the number says, and that it has the value of one that was seen to do the same. The only error is
/// want of memory.
pub(crate) fn learn(
    alloc: Global,
    facts: &mut Facts,
    all: &[Step],
    seen: &mut Seen,
    number: u32,
    step: &Step,
) -> Result<(), NoMemory>
    requires { slice_get all.now number ≡ Some step.now }
    ensures { OnOk result (Keeps all.now facts.old facts.new) }
{
    facts.shorten(number);
    learn_step(alloc, facts, all, seen, number, step)?;
    learn_addition(facts, all, seen, number)?;
    learn_alike(facts, all, seen, number, step)?;
    learn_wholes(facts, all, seen, number, step)
}

/// What the step says by itself.
fn learn_step(
    alloc: Global,
    facts: &mut Facts,
    all: &[Step],
    seen: &mut Seen,
    number: u32,
    step: &Step,
) -> Result<(), NoMemory>
    requires { slice_get all.now number ≡ Some step.now }
    ensures { OnOk result (Keeps all.now facts.old facts.new) }
{
    match step {
        Step::Bool(truth) => {
            facts.assume(number, *truth);
            Ok(())
        }
        Step::Int(n) => {
            facts.maker(number);
            learn_number(facts, number, *n);
            Ok(())
        }
        Step::Not(a) => {
            learn_not(facts, number, *a);
            Ok(())
        }
        Step::Unary(op, a) => {
            learn_unary(facts, all, number, *op, *a);
            Ok(())
        }
        Step::Both(a, b) => {
            learn_both(facts, number, *a, *b);
            Ok(())
        }
        Step::Choose(test, a, b) => {
            learn_choice(facts, number, *test, *a, *b);
            Ok(())
        }
        Step::Construct(ctor, fields) => {
            let shape = Shape {
                ctor: *ctor,
                fields: fields.len(),
            };
            learn_construct(facts, seen, number, shape)
        }
        Step::IsCtor(ctor, fields, a) => {
            let shape = Shape {
                ctor: *ctor,
                fields: *fields as usize,
            };
            learn_test(facts, seen, number, shape, *a)
        }
        Step::CtorField(ctor, place, a) => {
            learn_field(facts, all, number, *ctor, *place, *a);
            Ok(())
        }
        Step::Binary(op, a, b) => learn_operator(alloc, facts, all, seen, number, *op, *a, *b),
        Step::GoesDown(..) => learn_descent(facts, all, seen, number),
        Step::IsAlike(..) => {
            facts.assume(number, true);
            Ok(())
        }
        _ => Ok(()),
    }
}

/// What a step with an operator on one operand says.
fn learn_unary(facts: &mut Facts, all: &[Step], number: u32, op: UnaryOp, a: u32)
    requires { slice_get all.now number ≡ Some (steps.Unary op a) }
    ensures { Keeps all.now facts.old facts.new }
{
    match op {
        UnaryOp::Not => learn_not(facts, number, a),
        UnaryOp::Neg => facts.maker(number),
        UnaryOp::Flip => {}
    }
}

/// What a step with an operator on two operands says.
fn learn_operator(
    alloc: Global,
    facts: &mut Facts,
    all: &[Step],
    seen: &mut Seen,
    number: u32,
    op: BinaryOp,
    a: u32,
    b: u32,
) -> Result<(), NoMemory>
    requires { slice_get all.now number ≡ Some (steps.Binary op a b) }
    ensures { OnOk result (Keeps all.now facts.old facts.new) }
{
    match op {
        BinaryOp::Equal => learn_equality(alloc, facts, all, number, a, b, true),
        BinaryOp::Differ => learn_equality(alloc, facts, all, number, a, b, false),
        BinaryOp::Add | BinaryOp::Sub | BinaryOp::Mul => {
            facts.maker(number);
            Ok(())
        }
        BinaryOp::Rem => {
            learn_remainder(facts, number, a, b);
            Ok(())
        }
        BinaryOp::Div => {
            learn_quotient(facts, number, a, b);
            Ok(())
        }
        BinaryOp::And => {
            learn_common_bits(facts, all, number, a, b);
            Ok(())
        }
        BinaryOp::Shr => {
            learn_shifted(facts, all, number, a, b);
            Ok(())
        }
        BinaryOp::Ushr => {
            learn_shifted_unsigned(facts, all, number, a, b);
            Ok(())
        }
        _ => match order_of(op, a, b) {
            Some(order) => {
                learn_bounds(facts, number, order.low, order.high, order.positive);
                learn_offsets(facts, all, seen, number, order)?;
                learn_order(facts, all, seen, number, order)
            }
            None => Ok(()),
        },
    }
}
