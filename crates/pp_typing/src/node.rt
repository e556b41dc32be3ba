//! Nodes of typed expressions, made of their typed parts.

ghost use Rattle.std.specs.Prelude.{◌≡◌};
ghost use Rattle.pp_fault.specs.Part.{Tells};
ghost use Rattle.pp_rules.specs.Elab.{asserted, chosen, negated, operated, valued};
ghost use Rattle.pp_typing.specs.Views.{env_of};

use crate::Context;
use crate::checks::{agreed, flaw, typed};
use crate::operators::{gives, unary_sort};
use pp_fault::{Halt, Rule};
use pp_generic::{Expected, are_same, copy};
use pp_list::Boxed;
use pp_tree::{BinaryOp, UnaryOp};
use pp_typed::{TypedExpr, TypedKind};
use std::alloc::Global;

/// A prefix operator on an operand of its sort.
pub(crate) fn negated(
    alloc: Global,
    context: &Context,
    at: u32,
    expected: &Expected,
    op: UnaryOp,
    operand: Boxed<TypedExpr>,
) -> Result<Boxed<TypedExpr>, Halt>
    ensures { Tells result (negated (env_of context.now) at expected.now op operand) }
{
    let e = typed(
        alloc,
        context,
        at,
        unary_sort(op),
        TypedKind::Unary(op, operand),
    )?;
    agreed(alloc, context, expected, context.function, e)
}

/// An operator on two operands of sorts that it takes.
pub(crate) fn operated(
    alloc: Global,
    context: &Context,
    at: u32,
    expected: &Expected,
    op: BinaryOp,
    left: Boxed<TypedExpr>,
    right: Boxed<TypedExpr>,
) -> Result<Boxed<TypedExpr>, Halt>
    ensures { Tells result (operated (env_of context.now) at expected.now op left right) }
{
    let of = gives(alloc, op, &left.get().of)?;
    let e = typed(alloc, context, at, of, TypedKind::Binary(op, left, right))?;
    agreed(alloc, context, expected, context.function, e)
}

/// An `if`, whose two results have one sort; else the second is a mismatch.
pub(crate) fn chosen(
    alloc: Global,
    context: &Context,
    at: u32,
    test: Boxed<TypedExpr>,
    first: Boxed<TypedExpr>,
    name: &str,
    second: Boxed<TypedExpr>,
) -> Result<Boxed<TypedExpr>, Halt>
    ensures { Tells result (chosen (env_of context.now) at test first name.now second) }
{
    if are_same(&first.get().of, &second.get().of) {
        let of = copy(alloc, &first.get().of)?;
        Ok(typed(alloc, context, at, of, TypedKind::If(test, first, second))?)
    } else {
        flaw(alloc, context, Rule::Mismatch, name, second.get().at)
    }
}

/// A `val` with its value, and what follows it.
pub(crate) fn valued(
    alloc: Global,
    context: &Context,
    at: u32,
    value: Boxed<TypedExpr>,
    rest: Boxed<TypedExpr>,
) -> Result<Boxed<TypedExpr>, Halt>
    ensures { Tells result (valued (env_of context.now) at value rest) }
{
    let of = copy(alloc, &rest.get().of)?;
    Ok(typed(alloc, context, at, of, TypedKind::Val(value, rest))?)
}

/// An `assert` of a condition, and what follows it.
pub(crate) fn asserted(
    alloc: Global,
    context: &Context,
    at: u32,
    test: Boxed<TypedExpr>,
    rest: Boxed<TypedExpr>,
) -> Result<Boxed<TypedExpr>, Halt>
    ensures { Tells result (asserted (env_of context.now) at test rest) }
{
    let of = copy(alloc, &rest.get().of)?;
    Ok(typed(alloc, context, at, of, TypedKind::Assert(test, rest))?)
}
