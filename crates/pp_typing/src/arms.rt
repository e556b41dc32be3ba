//! Cases of a match, made of their typed parts.

ghost use Rattle.std.specs.Prelude.{◌≡◌, IfOk, None, Some, take};
ghost use Rattle.pp_fault.specs.Part.{Tells};
ghost use Rattle.pp_rules.specs.Elab.{alike, matched};
ghost use Rattle.pp_typing.specs.Views.{case_with, env_of};

use crate::checks::{flaw, of_sort, typed};
use crate::{Context, Local};
use pp_fault::{Halt, Rule};
use pp_generic::copy;
use pp_list::{Boxed, Items};
use pp_typed::{NoMemory, TypedCase, TypedCases, TypedExpr, TypedKind, TypedPattern};
use std::alloc::Global;

/// A case without a guard. The only error is want of memory.
pub(crate) fn unguarded(
    alloc: Global,
    pattern: TypedPattern,
    body: Boxed<TypedExpr>,
) -> Result<Boxed<TypedCase>, NoMemory>
    ensures { IfOk result (λ c. c ≡ case_with pattern None body) }
{
    let case = TypedCase {
        pattern,
        guard: None,
        body: body.into_inner(),
    };
    Boxed::new(alloc, case)
}

/// A case with a guard. The only error is want of memory.
pub(crate) fn guarded(
    alloc: Global,
    pattern: TypedPattern,
    guard: Boxed<TypedExpr>,
    body: Boxed<TypedExpr>,
) -> Result<Boxed<TypedCase>, NoMemory>
    ensures { IfOk result (λ c. c ≡ case_with pattern (Some guard) body) }
{
    let case = TypedCase {
        pattern,
        guard: Some(guard.into_inner()),
        body: body.into_inner(),
    };
    Boxed::new(alloc, case)
}

/// The body, where it has the sort of the bodies before it; else a mismatch there.
pub(crate) fn alike(
    alloc: Global,
    context: &Context,
    done: &[TypedCase],
    name: &str,
    body: Boxed<TypedExpr>,
) -> Result<Boxed<TypedExpr>, Halt>
    ensures { Tells result (alike (env_of context.now) done.now name.now body) }
{
    match done {
        [first, ..] => of_sort(alloc, context, Rule::Mismatch, &first.body.of, name, body),
        _ => Ok(body),
    }
}

/// A match with its cases, of which there is at least one.
pub(crate) fn matched(
    alloc: Global,
    context: &Context,
    at: u32,
    value: Boxed<TypedExpr>,
    arms: TypedCases,
) -> Result<Boxed<TypedExpr>, Halt>
    ensures { Tells result (matched (env_of context.now) at value arms) }
{
    let of = match arms.as_slice() {
        [first, ..] => copy(alloc, &first.body.of)?,
        _ => return flaw(alloc, context, Rule::Mismatch, context.function, at),
    };
    Ok(typed(alloc, context, at, of, TypedKind::Match(value, arms))?)
}

/// Leaves the first values in scope, so many of them, and drops the others.
pub(crate) fn truncate(scope: &mut Items<Local>, count: usize)
    ensures { scope.new ≡ take count scope.old }
{
    while scope.len() > count {
        let _ = scope.pop();
    }
}
