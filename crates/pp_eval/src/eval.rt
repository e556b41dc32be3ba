//! The evaluation of an expression.

ghost use Rattle.std.specs.Prelude.{◌≡◌, OnOk, map, slice_get, take};
ghost use Rattle.std.specs.Option.{option_map};
ghost use Rattle.pp_eval.specs.Callees.{call_meaning, case_meaning, expr_meaning};
ghost use Rattle.pp_eval.specs.Meaning as spec;
ghost use Rattle.pp_eval.specs.Meaning.{all, first_case, guarded};
ghost use Rattle.pp_eval.specs.Operators.{truth};
ghost use Rattle.pp_eval.specs.Part.{Tells, and_then, found};

use crate::fit::bind;
use crate::invocation::{Callees, call};
use crate::operators::{failed, operate, truth_of, unary};
use crate::outcome::{Halt, Stop};
use pp_list::{Items, at};
use pp_prog::{BinaryOp, Case, CheckId, Expr, Value, Values};
use std::alloc::Global;

/// The value of an expression, in a frame with these measure values and with the values in scope, which are the same
/// afterwards.
#[cycle(eval)]
pub(crate) fn value_of(
    alloc: Global,
    callees: Callees<'_>,
    frame: &Option<Values>,
    env: &mut Values,
    e: &Expr,
) -> Result<Value, Halt>
    ensures told { Tells result (expr_meaning callees.entry e.now frame.now env.old) }
    ensures kept { OnOk result (env.new ≡ env.old) }
{
    match e {
        Expr::Int(n) => Ok(Value::Int(*n)),
        Expr::Bool(b) => Ok(Value::Bool(*b)),
        Expr::Var(i) => variable(alloc, env.as_slice(), *i),
        Expr::Unary(op, a) => {
            let x = value_of(alloc, callees, frame, env, a.get())?;
            Ok(unary(*op, &x)?)
        }
        Expr::Binary(op, a, b, check) => {
            binary(alloc, callees, frame, env, *op, *check, a.get(), b.get())
        }
        Expr::Construct(c, args) => {
            let fields = values_of(alloc, callees, frame, env, args.as_slice())?;
            Ok(Value::Tree(*c, fields))
        }
        Expr::Field(e, k) => {
            let v = value_of(alloc, callees, frame, env, e.get())?;
            field(alloc, &v, *k)
        }
        Expr::If(c, a, b) => {
            let v = value_of(alloc, callees, frame, env, c.get())?;
            if truth_of(&v)? {
                value_of(alloc, callees, frame, env, a.get())
            } else {
                value_of(alloc, callees, frame, env, b.get())
            }
        }
        Expr::Match(e, cases, check) => {
            let v = value_of(alloc, callees, frame, env, e.get())?;
            case_of(alloc, callees, frame, env, cases.as_slice(), *check, &v)
        }
        Expr::Val(bound, rest) => {
            let v = value_of(alloc, callees, frame, env, bound.get())?;
            env.push(v)?;
            let result = value_of(alloc, callees, frame, env, rest.get())?;
            let _ = env.pop();
            Ok(result)
        }
        Expr::Assert(check, c, rest) => {
            let v = value_of(alloc, callees, frame, env, c.get())?;
            if truth_of(&v)? {
                value_of(alloc, callees, frame, env, rest.get())
            } else {
                Err(Halt::Stopped(Stop::Fails(*check)))
            }
        }
        Expr::Call {
            callee,
            args,
            pre,
            measure,
        } => {
            let values = values_of(alloc, callees, frame, env, args.as_slice())?;
            call(alloc, callees, frame, *callee, *pre, *measure, values)
        }
    }
}

// The value of an operator with two operands. The right side of `&&` and `||` is skipped where the left decides.
#[cycle(eval)]
fn binary(
    alloc: Global,
    callees: Callees<'_>,
    frame: &Option<Values>,
    env: &mut Values,
    op: BinaryOp,
    check: Option<CheckId>,
    a: &Expr,
    b: &Expr,
) -> Result<Value, Halt>
    ensures told { Tells result
        (spec.binary op (expr_meaning callees.entry a.now) (expr_meaning callees.entry b.now) check frame.now env.old) }
    ensures kept { OnOk result (env.new ≡ env.old) }
{
    let x = value_of(alloc, callees, frame, env, a)?;
    match op {
        BinaryOp::AndAlso => {
            if truth_of(&x)? {
                value_of(alloc, callees, frame, env, b)
            } else {
                Ok(Value::Bool(false))
            }
        }
        BinaryOp::OrElse => {
            if truth_of(&x)? {
                Ok(Value::Bool(true))
            } else {
                value_of(alloc, callees, frame, env, b)
            }
        }
        op => {
            let y = value_of(alloc, callees, frame, env, b)?;
            Ok(operate(op, check, &x, &y)?)
        }
    }
}

/// The values of expressions, from left to right.
#[cycle(eval)]
pub(crate) fn values_of(
    alloc: Global,
    callees: Callees<'_>,
    frame: &Option<Values>,
    env: &mut Values,
    exprs: &[Expr],
) -> Result<Values, Halt>
    ensures told { Tells result (all (map (expr_meaning callees.entry) exprs.now) frame.now env.old) }
    ensures kept { OnOk result (env.new ≡ env.old) }
{
    let mut values = Items::new(alloc);
    for e in exprs {
        let v = value_of(alloc, callees, frame, env, e)?;
        values.push(v)?;
    }
    Ok(values)
}

// The value of the first case that is taken for a value.
#[cycle(eval)]
fn case_of(
    alloc: Global,
    callees: Callees<'_>,
    frame: &Option<Values>,
    env: &mut Values,
    cases: &[Case],
    check: Option<CheckId>,
    v: &Value,
) -> Result<Value, Halt>
    ensures told { Tells result
        (first_case (map (case_meaning callees.entry) cases.now) check v.now frame.now env.old) }
    ensures kept { OnOk result (env.new ≡ env.old) }
{
    for case in cases {
        match attempt(alloc, callees, frame, env, case, v)? {
            Some(result) => return Ok(result),
            None => {}
        }
    }
    Ok(failed(check)?)
}

// The value of a case, where its pattern fits and its guard is true.
#[cycle(eval)]
fn attempt(
    alloc: Global,
    callees: Callees<'_>,
    frame: &Option<Values>,
    env: &mut Values,
    case: &Case,
    v: &Value,
) -> Result<Option<Value>, Halt>
    ensures told { Tells result (spec.attempt (case_meaning callees.entry case.now) v.now frame.now env.old) }
    ensures kept { OnOk result (env.new ≡ env.old) }
{
    match bind(alloc, &case.pattern, v)? {
        None => Ok(None),
        Some(bound) => {
            let depth = env.len();
            env.append(bound)?;
            let result = if holds(alloc, callees, frame, env, &case.guard)? {
                Some(value_of(alloc, callees, frame, env, &case.body)?)
            } else {
                None
            };
            truncate(env, depth);
            Ok(result)
        }
    }
}

/// Whether the condition is true; none always is.
#[cycle(eval)]
pub(crate) fn holds(
    alloc: Global,
    callees: Callees<'_>,
    frame: &Option<Values>,
    env: &mut Values,
    condition: &Option<Expr>,
) -> Result<bool, Halt>
    ensures told { Tells result (guarded (option_map (expr_meaning callees.entry) condition.now) frame.now env.old) }
    ensures kept { OnOk result (env.new ≡ env.old) }
{
    match condition {
        None => Ok(true),
        Some(e) => {
            let v = value_of(alloc, callees, frame, env, e)?;
            Ok(truth_of(&v)?)
        }
    }
}

fn variable(alloc: Global, env: &[Value], i: u32) -> Result<Value, Halt>
    ensures { Tells result (found (slice_get env.now i)) }
{
    match at(env, i as usize) {
        Some(v) => Ok(v.copy(alloc)?),
        None => Err(Halt::Stopped(Stop::Stuck)),
    }
}

// The field at this place.
fn field(alloc: Global, v: &Value, k: u32) -> Result<Value, Halt>
    ensures { Tells result (spec.field v.now k) }
{
    match v {
        Value::Int(_) => Err(Halt::Stopped(Stop::Stuck)),
        Value::Bool(_) => Err(Halt::Stopped(Stop::Stuck)),
        Value::Tree(_, fields) => variable(alloc, fields.as_slice(), k),
    }
}

// Keeps the first values alone.
fn truncate(env: &mut Values, depth: usize)
    ensures { env.new ≡ take depth env.old }
{
    while env.len() > depth {
        let _ = env.pop();
    }
}
