//! The functions that a function calls.

ghost use Rattle.std.specs.Prelude.{◌≡◌, ◌++◌, IfOk, map};
ghost use Rattle.pp_list.specs.Joined.{joined};
ghost use Rattle.pp_prog.specs.Calls.{call_table, calls, calls_in_case, contract_calls, function_calls};
ghost use Rattle.pp_prog.specs.Calls.{pre_calls};

use crate::{Case, Expr, Function, NoMemory};
use pp_list::Items;
use std::alloc::Global;

/// Adds the functions that the expression calls.
#[cycle(calls)]
fn add_calls(e: &Expr, found: &mut Items<u32>) -> Result<(), NoMemory>
    ensures { IfOk result (λ _. found.new ≡ found.old ++ calls e.now) }
{
    match e {
        Expr::Int(_) => Ok(()),
        Expr::Bool(_) => Ok(()),
        Expr::Var(_) => Ok(()),
        Expr::Unary(_, a) => add_calls(a.get(), found),
        Expr::Binary(_, a, b, _) => {
            add_calls(a.get(), found)?;
            add_calls(b.get(), found)?;
            Ok(())
        }
        Expr::Construct(_, args) => add_all(args.as_slice(), found),
        Expr::Field(e, _) => add_calls(e.get(), found),
        Expr::If(c, a, b) => {
            add_calls(c.get(), found)?;
            add_calls(a.get(), found)?;
            add_calls(b.get(), found)?;
            Ok(())
        }
        Expr::Match(e, cases, _) => {
            add_calls(e.get(), found)?;
            add_cases(cases.as_slice(), found)?;
            Ok(())
        }
        Expr::Val(bound, rest) => {
            add_calls(bound.get(), found)?;
            add_calls(rest.get(), found)?;
            Ok(())
        }
        Expr::Assert(_, c, rest) => {
            add_calls(c.get(), found)?;
            add_calls(rest.get(), found)?;
            Ok(())
        }
        Expr::Call { callee, args, .. } => {
            add_all(args.as_slice(), found)?;
            found.push(callee.0)?;
            Ok(())
        }
    }
}

/// Adds the functions that the expressions call.
#[cycle(calls)]
fn add_all(es: &[Expr], found: &mut Items<u32>) -> Result<(), NoMemory>
    ensures { IfOk result (λ _. found.new ≡ found.old ++ joined (map calls es.now)) }
{
    for e in es {
        add_calls(e, found)?;
    }
    Ok(())
}

/// Adds the functions that the cases call, in their guards and their bodies.
#[cycle(calls)]
fn add_cases(cases: &[Case], found: &mut Items<u32>) -> Result<(), NoMemory>
    ensures { IfOk result (λ _. found.new ≡ found.old ++ joined (map calls_in_case cases.now)) }
{
    for c in cases {
        add_case(c, found)?;
    }
    Ok(())
}

/// Adds the functions that the case calls.
#[cycle(calls)]
fn add_case(c: &Case, found: &mut Items<u32>) -> Result<(), NoMemory>
    ensures { IfOk result (λ _. found.new ≡ found.old ++ calls_in_case c.now) }
{
    add_guard(&c.guard, found)?;
    add_calls(&c.body, found)?;
    Ok(())
}

/// Adds the functions that the expression calls, if one is written.
#[cycle(calls)]
fn add_guard(e: &Option<Expr>, found: &mut Items<u32>) -> Result<(), NoMemory>
    ensures { IfOk result (λ _. found.new ≡ found.old ++ pre_calls e.now) }
{
    match e {
        None => Ok(()),
        Some(e) => add_calls(e, found),
    }
}

/// The functions that the function's contract calls before its body: in its precondition and in its measure list. The
/// only error is want of memory.
pub fn contract_calls(alloc: Global, f: &Function) -> Result<Items<u32>, NoMemory>
    ensures { IfOk result (λ found. found ≡ contract_calls f.now) }
{
    let mut found = Items::new(alloc);
    add_guard(&f.pre, &mut found)?;
    add_all(f.measure.as_slice(), &mut found)?;
    Ok(found)
}

/// The functions that the function calls, contracts included.
fn calls_of(alloc: Global, f: &Function) -> Result<Items<u32>, NoMemory>
    ensures { IfOk result (λ found. found ≡ function_calls f.now) }
{
    let mut found = contract_calls(alloc, f)?;
    add_calls(&f.body, &mut found)?;
    match &f.post {
        None => {}
        Some(post) => add_calls(&post.1, &mut found)?,
    }
    Ok(found)
}

/// The functions that each function calls, contracts included. The only error is want of memory.
pub fn call_table(alloc: Global, functions: &[Function]) -> Result<Items<Items<u32>>, NoMemory>
    ensures { IfOk result (λ calls. calls ≡ call_table functions.now) }
{
    let mut calls = Items::new(alloc);
    for f in functions {
        calls.push(calls_of(alloc, f)?)?;
    }
    Ok(calls)
}
