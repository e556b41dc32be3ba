//! What the operators make of values. None takes memory.

ghost use Rattle.std.specs.Prelude.{◌≡◌};
ghost use Rattle.std.specs.Int.{w32};
ghost use Rattle.pp_word.specs.Word.{word_div, word_rem};
ghost use Rattle.pp_eval.specs.Operators as spec;
ghost use Rattle.pp_prog.specs.declared.value.Value.TheViews.{out-Value};
ghost use Rattle.pp_eval.specs.Operators.{divided, number, on_layers, on_numbers, on_truths, operated, truth};
ghost use Rattle.pp_eval.specs.Part as part;

use crate::equality::are_equal;
use crate::outcome::Stop;
use pp_prog::{BinaryOp, CheckId, UnaryOp, Value};

/// The truth value that a value is.
pub(crate) fn truth_of(v: &Value) -> Result<bool, Stop>
    ensures { result ≡ truth v.now }
{
    match v {
        Value::Bool(b) => Ok(*b),
        Value::Int(_) => Err(Stop::Stuck),
        Value::Tree(_, _) => Err(Stop::Stuck),
    }
}

/// The number that a value is.
fn number_of(v: &Value) -> Result<i32, Stop>
    ensures { result ≡ number v.now }
{
    match v {
        Value::Int(n) => Ok(*n),
        Value::Bool(_) => Err(Stop::Stuck),
        Value::Tree(_, _) => Err(Stop::Stuck),
    }
}

/// The failure of a site's check.
pub(crate) fn failed<T>(check: Option<CheckId>) -> Result<T, Stop>
    ensures { result ≡ part.failed check }
{
    match check {
        Some(c) => Err(Stop::Fails(c)),
        None => Err(Stop::Stuck),
    }
}

/// What an operator makes of its operand: prefix `-`, `!`, `~`.
///
/// # Errors
/// `Stuck`: exactly where the operand isn't of the operator's sort, which no expression of a valid program meets.
pub fn unary(op: UnaryOp, v: &Value) -> Result<Value, Stop>
    ensures { result ≡ spec.unary op v.now }
{
    match op {
        UnaryOp::Neg => Ok(Value::Int(pp_word::neg(number_of(v)?))),
        UnaryOp::Not => Ok(Value::Bool(!truth_of(v)?)),
        UnaryOp::Flip => Ok(Value::Int(pp_word::not(number_of(v)?))),
    }
}

fn quotient(check: Option<CheckId>, a: i32, b: i32) -> Result<Value, Stop>
    ensures { result ≡ divided check b (word_div w32 a b) }
{
    match pp_word::div(a, b) {
        Some(q) => Ok(Value::Int(q)),
        None => failed(check),
    }
}

fn remainder(check: Option<CheckId>, a: i32, b: i32) -> Result<Value, Stop>
    ensures { result ≡ divided check b (word_rem w32 a b) }
{
    match pp_word::rem(a, b) {
        Some(r) => Ok(Value::Int(r)),
        None => failed(check),
    }
}

/// An operator on two numbers.
fn of_numbers(op: BinaryOp, check: Option<CheckId>, a: i32, b: i32) -> Result<Value, Stop>
    ensures { result ≡ on_numbers op check a b }
{
    match op {
        BinaryOp::Add => Ok(Value::Int(pp_word::add(a, b))),
        BinaryOp::Sub => Ok(Value::Int(pp_word::sub(a, b))),
        BinaryOp::Mul => Ok(Value::Int(pp_word::mul(a, b))),
        BinaryOp::Div => quotient(check, a, b),
        BinaryOp::Rem => remainder(check, a, b),
        BinaryOp::Less => Ok(Value::Bool(pp_word::less(a, b))),
        BinaryOp::AtMost => Ok(Value::Bool(pp_word::at_most(a, b))),
        BinaryOp::More => Ok(Value::Bool(pp_word::less(b, a))),
        BinaryOp::AtLeast => Ok(Value::Bool(pp_word::at_most(b, a))),
        BinaryOp::And => Ok(Value::Int(pp_word::and(a, b))),
        BinaryOp::Or => Ok(Value::Int(pp_word::or(a, b))),
        BinaryOp::Xor => Ok(Value::Int(pp_word::xor(a, b))),
        BinaryOp::Shl => Ok(Value::Int(pp_word::shl(a, b))),
        BinaryOp::Shr => Ok(Value::Int(pp_word::shr(a, b))),
        BinaryOp::Ushr => Ok(Value::Int(pp_word::ushr(a, b))),
        BinaryOp::Equal => Err(Stop::Stuck),
        BinaryOp::Differ => Err(Stop::Stuck),
        BinaryOp::AndAlso => Err(Stop::Stuck),
        BinaryOp::OrElse => Err(Stop::Stuck),
    }
}

/// An operator on two truth values, both of which were evaluated.
fn of_truths(op: BinaryOp, a: bool, b: bool) -> Result<Value, Stop>
    ensures { result ≡ on_truths op a b }
{
    match op {
        BinaryOp::And => Ok(Value::Bool(a & b)),
        BinaryOp::Or => Ok(Value::Bool(a | b)),
        BinaryOp::Xor => Ok(Value::Bool(a ^ b)),
        _ => Err(Stop::Stuck),
    }
}

/// An operator on two numbers or two truth values.
fn of_alike(op: BinaryOp, check: Option<CheckId>, x: &Value, y: &Value) -> Result<Value, Stop>
    ensures { result ≡ on_layers op check (out-Value x.now) (out-Value y.now) }
{
    match (x, y) {
        (Value::Int(a), Value::Int(b)) => of_numbers(op, check, *a, *b),
        (Value::Bool(a), Value::Bool(b)) => of_truths(op, *a, *b),
        _ => Err(Stop::Stuck),
    }
}

/// What an operator makes of its two operands, both of which were evaluated, at a site with this check. `==` and `!=`
/// recurse on the height of the operands.
///
/// # Errors
/// `Fails`: exactly where a number is divided by 0 and the site has a check. `Stuck`: exactly where one is divided by 0
/// and there is none, where operands of an operator but `==` and `!=` aren't of its sorts, and for `&&` and `||`, which
/// may skip their right operand.
pub fn operate(op: BinaryOp, check: Option<CheckId>, x: &Value, y: &Value) -> Result<Value, Stop>
    ensures { result ≡ operated op check x.now y.now }
{
    match op {
        BinaryOp::Equal => Ok(Value::Bool(are_equal(x, y))),
        BinaryOp::Differ => Ok(Value::Bool(!are_equal(x, y))),
        _ => of_alike(op, check, x, y),
    }
}
