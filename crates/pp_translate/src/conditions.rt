//! Several conditions as one.

ghost use Rattle.std.specs.Prelude.{◌≡◌, ◌≤◌, ◌++◌, ◌∷◌, IfOk, None, OnOk, length, reverse};
ghost use Rattle.pp_tree.specs.declared.operator.BinaryOp.TheVariants.{AndAlso};
ghost use Rattle.pp_prog.specs.declared.expr.Expr.TheVariants.{Binary};
ghost use Rattle.pp_translation.specs.Functions.{as_one, in_pairs};

use crate::NoMemory;
use pp_list::{Boxed, Items};
use pp_prog::{BinaryOp, Expr, Exprs};
use std::alloc::Global;

/// The first condition and, where it is true, the second.
fn and_also(alloc: Global, a: Expr, b: Expr) -> Result<Expr, NoMemory>
    ensures { IfOk result (λ x. x ≡ Binary AndAlso a b None) }
{
    let a = Boxed::new(alloc, a)?;
    let b = Boxed::new(alloc, b)?;
    Ok(Expr::Binary(BinaryOp::AndAlso, a, b, None))
}

/// The conditions from the last to the first.
fn reversed(alloc: Global, conditions: Exprs) -> Result<Exprs, NoMemory>
    ensures { IfOk result (λ es. es ≡ reverse conditions) }
{
    let mut rest = conditions;
    let mut done = Items::new(alloc);
    while let Some(last) = rest.pop() {
        done.push(last)?;
    }
    Ok(done)
}

/// Adds a condition, and with it the next one, which is the last of the rest.
fn add_pair(alloc: Global, a: Expr, rest: &mut Exprs, done: &mut Exprs) -> Result<(), NoMemory>
    ensures pair { OnOk result
        (done.new ++ in_pairs (reverse rest.new) ≡ done.old ++ in_pairs (a ∷ reverse rest.old)) }
    ensures fewer { OnOk result (length rest.new ≤ length rest.old) }
{
    match rest.pop() {
        None => done.push(a),
        Some(b) => done.push(and_also(alloc, a, b)?),
    }
}

/// The first condition with the second, the third with the fourth, ..; a last one alone stays.
fn in_pairs(alloc: Global, conditions: Exprs) -> Result<Exprs, NoMemory>
    ensures { IfOk result (λ es. es ≡ in_pairs conditions) }
{
    let mut rest = reversed(alloc, conditions)?;
    let mut done = Items::new(alloc);
    while let Some(a) = rest.pop() {
        add_pair(alloc, a, &mut rest, &mut done)?;
    }
    Ok(done)
}

/// Several conditions as one, in order; none is no condition. It calls itself once for each time that they are halved.
pub(crate) fn as_one(alloc: Global, conditions: Exprs) -> Result<Option<Expr>, NoMemory>
    ensures { IfOk result (λ x. x ≡ as_one conditions) }
{
    if conditions.len() < 2 {
        let mut conditions = conditions;
        return Ok(conditions.pop());
    }
    let pairs = in_pairs(alloc, conditions)?;
    as_one(alloc, pairs)
}
