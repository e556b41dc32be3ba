//! Applications of functions and constructors, and what is found of their type parameters.

ghost use Rattle.std.specs.Prelude.{◌≡◌, IfOk, Some, map};
ghost use Rattle.pp_fault.specs.Part.{Tells};
ghost use Rattle.pp_rules.specs.Elab.{finished, started, taken};
ghost use Rattle.pp_tree.specs.Shown.{type_of, type_trees};
ghost use Rattle.pp_typing.specs.Views.{TellsBoth, env_of};

use crate::Context;
use crate::checks::{agreed, all_written, flaw, typed};
use crate::lookup::application;
use pp_fault::{Halt, Rule};
use pp_generic::{Expected, Found, all_found, are_same, exact, known, learn, none_found, put};
use pp_list::{Boxed, Items};
use pp_rules::Callee;
use pp_tree::TypeText;
use pp_typed::{GenericSort, GenericSorts, NoMemory, TypedExpr, TypedExprs};
use std::alloc::Global;

/// Each of these sorts is found. The only error is want of memory.
fn each_found(alloc: Global, sorts: GenericSorts) -> Result<Found, NoMemory>
    ensures { IfOk result (λ found. found ≡ map Some sorts) }
{
    let mut found = Items::new(alloc);
    for sort in sorts.as_slice() {
        found.push(Some(pp_generic::copy(alloc, sort)?))?;
    }
    Ok(found)
}

/// What is found before the arguments: all that is written, or what the expected sort tells.
pub(crate) fn started(
    alloc: Global,
    context: &Context,
    at: u32,
    name: &str,
    types: &[TypeText],
    callee: &Callee,
    expected: &Expected,
) -> Result<Found, Halt>
    ensures { Tells result (started (env_of context.now) at expected.now name.now (type_trees
        (map type_of types.now)) callee.now) }
{
    if types.is_empty() {
        let mut found = none_found(alloc, callee.type_params)?;
        learn(alloc, &callee.result, expected, &mut found)?;
        return Ok(found);
    }
    if types.len() != callee.type_params as usize {
        return flaw(alloc, context, Rule::Arity, name, at);
    }
    let sorts = all_written(alloc, context, types)?;
    Ok(each_found(alloc, sorts)?)
}

/// The argument, where its sort is that of its parameter with what is found after it.
pub(crate) fn taken(
    alloc: Global,
    context: &Context,
    param: &GenericSort,
    name: &str,
    found: &mut Found,
    arg: Boxed<TypedExpr>,
) -> Result<Boxed<TypedExpr>, Halt>
    ensures { TellsBoth result found.new (taken (env_of context.now) param.now name.now found.old arg) }
{
    let actual = exact(alloc, &arg.get().of)?;
    learn(alloc, param, &actual, found)?;
    let wanted = known(alloc, found.as_slice(), param)?;
    match &wanted {
        Some(wanted) if are_same(wanted, &arg.get().of) => Ok(arg),
        _ => flaw(alloc, context, Rule::Mismatch, name, arg.get().at),
    }
}

/// The application, where each type argument is found.
pub(crate) fn finished(
    alloc: Global,
    context: &Context,
    at: u32,
    name: &str,
    callee: Callee,
    args: TypedExprs,
    found: Found,
    expected: &Expected,
) -> Result<Boxed<TypedExpr>, Halt>
    ensures { Tells result (finished (env_of context.now) at expected.now name.now callee (args, found)) }
{
    match all_found(alloc, found.as_slice())? {
        None => flaw(alloc, context, Rule::CannotInfer, name, at),
        Some(sorts) => {
            let of = put(alloc, sorts.as_slice(), &callee.result)?;
            let kind = application(callee.target, sorts, args);
            let e = typed(alloc, context, at, of, kind)?;
            agreed(alloc, context, expected, name, e)
        }
    }
}
