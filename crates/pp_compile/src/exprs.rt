//! The steps of expressions.

ghost use Rattle.std.specs.Prelude.{◌≡◌, ℕ, IfOk, List, length, map, slice_index_or};
ghost use Rattle.pp_steps.specs.Compile.{all, number_or};
ghost use Rattle.pp_steps.specs.Piece as piece;
ghost use Rattle.pp_compile.specs.Sites.{compile_at};
ghost use Rattle.pp_compile.specs.Written.{AreMade, IsMade};

use crate::NoMemory;
use crate::calls::{Site, call};
use crate::cases::case_of;
use crate::emit::{demand, one, unless, when};
use crate::operators::{binary_of, branches_of};
use crate::work::{Branch, Ends, Lists, Work};
use pp_list::Items;
use pp_prog::{CheckId, Expr};
use pp_steps::{Numbers, Step};
use std::alloc::Global;

/// Whether the check is the asked one.
pub(crate) fn asks(asked: Option<CheckId>, check: Option<CheckId>) -> bool
    ensures { result ≡ piece.asks asked check }
{
    match (asked, check) {
        (Some(c), Some(d)) => c.0 == d.0,
        _ => false,
    }
}

/// The steps of an expression at a site, behind those that stand, with the numbers of the variables in scope.
#[cycle(compile)]
pub(crate) fn value_of(
    alloc: Global,
    site: Site<'_>,
    env: &mut Numbers,
    reach: u32,
    e: &Expr,
    work: &mut Work,
) -> Result<Ends, NoMemory>
    ensures made { IfOk result (λ r. IsMade work.old work.new
        (compile_at site.entry e.now (length work.old.steps) env.old reach) r) }
    ensures kept { IfOk result (λ _. env.new ≡ env.old) }
{
    match e {
        Expr::Int(n) => one(work, Step::Int(*n), reach),
        Expr::Bool(b) => one(work, Step::Bool(*b), reach),
        Expr::Var(i) => Ok(Ends {
            out: number_at(env.as_slice(), *i),
            alive: reach,
        }),
        Expr::Unary(op, a) => {
            let x = value_of(alloc, site, env, reach, a.get(), work)?;
            one(work, Step::Unary(*op, x.out), x.alive)
        }
        Expr::Binary(op, a, b, check) => {
            binary_of(alloc, site, env, reach, *op, a.get(), b.get(), *check, work)
        }
        Expr::Construct(c, args) => {
            let xs = values_of(alloc, site, env, reach, args.as_slice(), work)?;
            one(work, Step::Construct(*c, xs.out), xs.alive)
        }
        Expr::Field(a, k) => {
            let x = value_of(alloc, site, env, reach, a.get(), work)?;
            one(work, Step::Field(x.out, *k), x.alive)
        }
        Expr::If(c, a, b) => {
            let x = value_of(alloc, site, env, reach, c.get(), work)?;
            let taken = when(work, x.alive, x.out)?;
            let missed = unless(work, x.alive, x.out)?;
            branches_of(alloc, site, env, taken, missed, a.get(), b.get(), work)
        }
        Expr::Match(e, cases, check) => {
            let x = value_of(alloc, site, env, reach, e.get(), work)?;
            let cases = cases.as_slice();
            if cases.len() >= u32::MAX as usize {
                return Err(NoMemory);
            }
            let found = case_of(alloc, site, env, x.alive, cases, *check, x.out, work)?;
            Ok(matched(x.out, found))
        }
        Expr::Val(bound, rest) => {
            let x = value_of(alloc, site, env, reach, bound.get(), work)?;
            env.push(x.out)?;
            let result = value_of(alloc, site, env, x.alive, rest.get(), work)?;
            let _ = env.pop();
            Ok(result)
        }
        Expr::Assert(check, c, rest) => {
            let x = value_of(alloc, site, env, reach, c.get(), work)?;
            let going = demand(work, asks(site.asked, Some(*check)), x.alive, x.out)?;
            value_of(alloc, site, env, going.alive, rest.get(), work)
        }
        Expr::Call {
            callee,
            args,
            pre,
            measure,
        } => {
            let xs = values_of(alloc, site, env, reach, args.as_slice(), work)?;
            call(alloc, site, xs.alive, *callee, *pre, *measure, xs.out, work)
        }
    }
}

/// The steps of expressions, from left to right.
#[cycle(compile)]
pub(crate) fn values_of(
    alloc: Global,
    site: Site<'_>,
    env: &mut Numbers,
    reach: u32,
    exprs: &[Expr],
    work: &mut Work,
) -> Result<Lists, NoMemory>
    ensures made { IfOk result (λ r. AreMade work.old work.new
        (all (map (compile_at site.entry) exprs.now) (length work.old.steps) env.old reach) r) }
    ensures kept { IfOk result (λ _. env.new ≡ env.old) }
{
    let mut out = Items::new(alloc);
    let mut alive = reach;
    for e in exprs {
        let x = value_of(alloc, site, env, alive, e, work)?;
        out.push(x.out)?;
        alive = x.alive;
    }
    Ok(Lists { out, alive })
}

fn number_at(env: &[u32], i: u32) -> u32
    ensures { result ≡ slice_index_or env.now i 0 }
{
    if (i as usize) < env.len() {
        env[i as usize]
    } else {
        0
    }
}

// The outcome of a match; one without a case gives the matched value.
fn matched(value: u32, found: Branch) -> Ends
    ensures out { result.out ≡ number_or value found.out }
    ensures alive { result.alive ≡ found.alive }
{
    let out = match found.out {
        Some(out) => out,
        None => value,
    };
    Ends {
        out,
        alive: found.alive,
    }
}
