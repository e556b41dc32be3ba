//! Steps whose operands are literals.

ghost use Rattle.std.specs.Prelude.{◌≡◌, MatchOption};
ghost use Rattle.pp_simplify.specs.Literals as spec;

use pp_eval::{Stop, goes_down, one_sort, operate, unary};
use pp_list::at;
use pp_prog::Value;
use pp_steps::Step;

/// The literal that stands in the place of the step behind these ones, if one does.
pub(crate) fn literal(news: &[Step], step: &Step) -> Option<Step>
    ensures { MatchOption result (spec.stated step.now (spec.computed news.now step.now) ≡ step.now)
        (λ t. t ≡ spec.stated step.now (spec.computed news.now step.now)) }
{
    match computed(news, step) {
        Ok(Value::Int(n)) => Some(Step::Int(n)),
        Ok(Value::Bool(b)) => Some(Step::Bool(b)),
        _ => None,
    }
}

/// What the step behind these ones comes to, where its operands are literals. A divisor of 0 has no check that it
/// fails, and no literal is a tree.
fn computed(news: &[Step], step: &Step) -> Result<Value, Stop>
    ensures { result ≡ spec.computed news.now step.now }
{
    match step {
        Step::Unary(op, a) => unary(*op, &literal_at(news, *a)?),
        Step::Binary(op, a, b) => operate(
            *op,
            None,
            &literal_at(news, *a)?,
            &literal_at(news, *b)?,
        ),
        Step::IsAlike(a, b) => {
            let alike = one_sort(&[], &literal_at(news, *a)?, &literal_at(news, *b)?);
            Ok(Value::Bool(alike))
        }
        Step::GoesDown(a, b) => {
            let down = goes_down(&literal_at(news, *a)?, &literal_at(news, *b)?);
            Ok(Value::Bool(down))
        }
        _ => Err(Stop::Stuck),
    }
}

/// The value of the step with the number, if that is a literal.
fn literal_at(news: &[Step], number: u32) -> Result<Value, Stop>
    ensures { result ≡ spec.literal_at news.now number }
{
    match at(news, number as usize) {
        Some(Step::Int(n)) => Ok(Value::Int(*n)),
        Some(Step::Bool(b)) => Ok(Value::Bool(*b)),
        _ => Err(Stop::Stuck),
    }
}
