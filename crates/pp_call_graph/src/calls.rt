//! The functions of a program that typed functions call.

ghost use Rattle.std.specs.Prelude.{◌≡◌, ◌<◌, ◌^◌, ◌++◌, ◌∷◌, [], IfOk, length};
ghost use Rattle.pp_call_graph.specs.TypedCalls as spec;

use crate::NoMemory;
use pp_list::Items;
use pp_numbers::{Numbers, puts};
use pp_typed::{GenericSort, TypedCase, TypedDef, TypedExpr, TypedKind, TypedPost};
use std::alloc::Global;

/// Adds the number of the called function.
fn add_callee(
    alloc: Global,
    numbers: &Numbers,
    args: &[GenericSort],
    f: u32,
    sorts: &[GenericSort],
    found: &mut Items<u32>,
) -> Result<(), NoMemory>
    requires { length numbers.now.functions < 2 ^ 31 }
    ensures { IfOk result (λ _. found.new ≡ found.old ++ spec.callee numbers.now.functions args.now f sorts.now ∷ []) }
{
    let sorts = puts(alloc, args, sorts)?;
    let callee = numbers.function(f, sorts);
    found.push(callee.0)
}

/// Adds the functions that the expression calls.
#[cycle(calls)]
fn add_calls(
    alloc: Global,
    numbers: &Numbers,
    e: &TypedExpr,
    args: &[GenericSort],
    found: &mut Items<u32>,
) -> Result<(), NoMemory>
    requires { length numbers.now.functions < 2 ^ 31 }
    ensures { IfOk result (λ _. found.new ≡ found.old ++ spec.typed_calls numbers.now.functions args.now e.now) }
{
    match &e.kind {
        TypedKind::Int(_) => Ok(()),
        TypedKind::Bool(_) => Ok(()),
        TypedKind::Local(_) => Ok(()),
        TypedKind::Call(f, sorts, es) => {
            add_all(alloc, numbers, es.as_slice(), args, found)?;
            add_callee(alloc, numbers, args, *f, sorts.as_slice(), found)?;
            Ok(())
        }
        TypedKind::Construct(_, _, es) => add_all(alloc, numbers, es.as_slice(), args, found),
        TypedKind::Field(base, _) => add_calls(alloc, numbers, base.get(), args, found),
        TypedKind::Unary(_, a) => add_calls(alloc, numbers, a.get(), args, found),
        TypedKind::Binary(_, a, b) => {
            add_calls(alloc, numbers, a.get(), args, found)?;
            add_calls(alloc, numbers, b.get(), args, found)?;
            Ok(())
        }
        TypedKind::If(c, a, b) => {
            add_calls(alloc, numbers, c.get(), args, found)?;
            add_calls(alloc, numbers, a.get(), args, found)?;
            add_calls(alloc, numbers, b.get(), args, found)?;
            Ok(())
        }
        TypedKind::Match(matched, cases) => {
            add_calls(alloc, numbers, matched.get(), args, found)?;
            add_cases(alloc, numbers, cases.as_slice(), args, found)?;
            Ok(())
        }
        TypedKind::Val(bound, rest) => {
            add_calls(alloc, numbers, bound.get(), args, found)?;
            add_calls(alloc, numbers, rest.get(), args, found)?;
            Ok(())
        }
        TypedKind::Assert(c, rest) => {
            add_calls(alloc, numbers, c.get(), args, found)?;
            add_calls(alloc, numbers, rest.get(), args, found)?;
            Ok(())
        }
    }
}

/// Adds the functions that the expressions call.
#[cycle(calls)]
fn add_all(
    alloc: Global,
    numbers: &Numbers,
    es: &[TypedExpr],
    args: &[GenericSort],
    found: &mut Items<u32>,
) -> Result<(), NoMemory>
    requires { length numbers.now.functions < 2 ^ 31 }
    ensures { IfOk result (λ _. found.new ≡ found.old ++ spec.all_calls numbers.now.functions args.now es.now) }
{
    for e in es {
        add_calls(alloc, numbers, e, args, found)?;
    }
    Ok(())
}

/// Adds the functions that the cases call.
#[cycle(calls)]
fn add_cases(
    alloc: Global,
    numbers: &Numbers,
    cases: &[TypedCase],
    args: &[GenericSort],
    found: &mut Items<u32>,
) -> Result<(), NoMemory>
    requires { length numbers.now.functions < 2 ^ 31 }
    ensures { IfOk result (λ _. found.new ≡ found.old ++ spec.all_case_calls numbers.now.functions args.now cases.now) }
{
    for c in cases {
        add_case(alloc, numbers, c, args, found)?;
    }
    Ok(())
}

/// Adds the functions that the case calls, in its guard and its body.
#[cycle(calls)]
fn add_case(
    alloc: Global,
    numbers: &Numbers,
    c: &TypedCase,
    args: &[GenericSort],
    found: &mut Items<u32>,
) -> Result<(), NoMemory>
    requires { length numbers.now.functions < 2 ^ 31 }
    ensures { IfOk result (λ _. found.new ≡ found.old ++ spec.case_calls numbers.now.functions args.now c.now) }
{
    add_guard(alloc, numbers, &c.guard, args, found)?;
    add_calls(alloc, numbers, &c.body, args, found)?;
    Ok(())
}

/// Adds the functions that the guard calls, if one is written.
#[cycle(calls)]
fn add_guard(
    alloc: Global,
    numbers: &Numbers,
    guard: &Option<TypedExpr>,
    args: &[GenericSort],
    found: &mut Items<u32>,
) -> Result<(), NoMemory>
    requires { length numbers.now.functions < 2 ^ 31 }
    ensures { IfOk result (λ _. found.new ≡ found.old ++ spec.guard_calls numbers.now.functions args.now guard.now) }
{
    match guard {
        None => Ok(()),
        Some(e) => add_calls(alloc, numbers, e, args, found),
    }
}

/// Adds the functions that the postcondition calls, if one is written.
fn add_post(
    alloc: Global,
    numbers: &Numbers,
    post: &Option<TypedPost>,
    args: &[GenericSort],
    found: &mut Items<u32>,
) -> Result<(), NoMemory>
    requires { length numbers.now.functions < 2 ^ 31 }
    ensures { IfOk result (λ _. found.new ≡ found.old ++ spec.post_calls numbers.now.functions args.now post.now) }
{
    match post {
        None => Ok(()),
        Some(post) => add_calls(alloc, numbers, &post.claim, args, found),
    }
}

/// The functions that the function calls at these arguments, contracts included. The only error is want of memory.
pub(crate) fn calls_of(
    alloc: Global,
    numbers: &Numbers,
    d: &TypedDef,
    args: &[GenericSort],
) -> Result<Items<u32>, NoMemory>
    requires { length numbers.now.functions < 2 ^ 31 }
    ensures { IfOk result (λ calls. calls ≡ spec.def_calls numbers.now.functions args.now d.now) }
{
    let mut found = Items::new(alloc);
    add_all(alloc, numbers, d.pre.as_slice(), args, &mut found)?;
    add_all(alloc, numbers, d.measure.as_slice(), args, &mut found)?;
    add_calls(alloc, numbers, &d.body, args, &mut found)?;
    add_post(alloc, numbers, &d.post, args, &mut found)?;
    Ok(found)
}
