//! The steps of operators with two operands, and of two branches.

ghost use Rattle.std.specs.Prelude.{◌≡◌, ℕ, IfOk, List, length};
ghost use Rattle.pp_steps.specs.Compile.{binary, branches, operating, quotient};
ghost use Rattle.pp_compile.specs.Sites.{compile_at};
ghost use Rattle.pp_compile.specs.Written.{IsMade, conjunction, disjunction, strict};

use crate::NoMemory;
use crate::calls::Site;
use crate::emit::{choose, demand, emit, one, unless, when};
use crate::exprs::{asks, value_of};
use crate::work::{Ends, Work};
use pp_prog::{BinaryOp, CheckId, Expr};
use pp_steps::{Numbers, Step};
use std::alloc::Global;

/// The steps of an operator with two operands.
#[cycle(compile)]
pub(crate) fn binary_of(
    alloc: Global,
    site: Site<'_>,
    env: &mut Numbers,
    reach: u32,
    op: BinaryOp,
    a: &Expr,
    b: &Expr,
    check: Option<CheckId>,
    work: &mut Work,
) -> Result<Ends, NoMemory>
    ensures made { IfOk result (λ r. IsMade work.old work.new
        (binary site.entry.asked op (compile_at site.entry a.now)
        (compile_at site.entry b.now) check (length work.old.steps) env.old reach) r) }
    ensures kept { IfOk result (λ _. env.new ≡ env.old) }
{
    match op {
        BinaryOp::AndAlso => both_of(alloc, site, env, reach, a, b, work),
        BinaryOp::OrElse => either_of(alloc, site, env, reach, a, b, work),
        _ => strict_of(alloc, site, env, reach, op, a, b, check, work),
    }
}

// `&&`: the right side counts only where the left is true.
#[cycle(compile)]
fn both_of(
    alloc: Global,
    site: Site<'_>,
    env: &mut Numbers,
    reach: u32,
    a: &Expr,
    b: &Expr,
    work: &mut Work,
) -> Result<Ends, NoMemory>
    ensures made { IfOk result (λ r. IsMade work.old work.new
        (conjunction (compile_at site.entry a.now) (compile_at site.entry b.now)
        (length work.old.steps) env.old reach) r) }
    ensures kept { IfOk result (λ _. env.new ≡ env.old) }
{
    let x = value_of(alloc, site, env, reach, a, work)?;
    let taken = when(work, x.alive, x.out)?;
    let y = value_of(alloc, site, env, taken, b, work)?;
    choose(work, taken, y, Some(x.out), x.alive)
}

// `||`: the right side counts only where the left is false.
#[cycle(compile)]
fn either_of(
    alloc: Global,
    site: Site<'_>,
    env: &mut Numbers,
    reach: u32,
    a: &Expr,
    b: &Expr,
    work: &mut Work,
) -> Result<Ends, NoMemory>
    ensures made { IfOk result (λ r. IsMade work.old work.new
        (disjunction (compile_at site.entry a.now) (compile_at site.entry b.now)
        (length work.old.steps) env.old reach) r) }
    ensures kept { IfOk result (λ _. env.new ≡ env.old) }
{
    let x = value_of(alloc, site, env, reach, a, work)?;
    let taken = unless(work, x.alive, x.out)?;
    let y = value_of(alloc, site, env, taken, b, work)?;
    choose(work, taken, y, Some(x.out), x.alive)
}

// An operator that evaluates both operands.
#[cycle(compile)]
fn strict_of(
    alloc: Global,
    site: Site<'_>,
    env: &mut Numbers,
    reach: u32,
    op: BinaryOp,
    a: &Expr,
    b: &Expr,
    check: Option<CheckId>,
    work: &mut Work,
) -> Result<Ends, NoMemory>
    ensures made { IfOk result (λ r. IsMade work.old work.new
        (strict site.entry.asked op (compile_at site.entry a.now)
        (compile_at site.entry b.now) check (length work.old.steps) env.old reach) r) }
    ensures kept { IfOk result (λ _. env.new ≡ env.old) }
{
    let x = value_of(alloc, site, env, reach, a, work)?;
    let y = value_of(alloc, site, env, x.alive, b, work)?;
    operate(work, site.asked, op, check, y.alive, x.out, y.out)
}

/// Two branches, of which at most one is reached.
#[cycle(compile)]
pub(crate) fn branches_of(
    alloc: Global,
    site: Site<'_>,
    env: &mut Numbers,
    taken: u32,
    missed: u32,
    a: &Expr,
    b: &Expr,
    work: &mut Work,
) -> Result<Ends, NoMemory>
    ensures made { IfOk result (λ r. IsMade work.old work.new
        (branches (compile_at site.entry a.now) (compile_at site.entry b.now)
        (length work.old.steps) env.old taken missed) r) }
    ensures kept { IfOk result (λ _. env.new ≡ env.old) }
{
    let left = value_of(alloc, site, env, taken, a, work)?;
    let right = value_of(alloc, site, env, missed, b, work)?;
    choose(work, taken, left, Some(right.out), right.alive)
}

// An operator on two values. A divisor of 0 fails the site's check.
fn operate(
    work: &mut Work,
    asked: Option<CheckId>,
    op: BinaryOp,
    check: Option<CheckId>,
    alive: u32,
    x: u32,
    y: u32,
) -> Result<Ends, NoMemory>
    ensures { IfOk result (λ r. IsMade work.old work.new
        (operating asked op check (length work.old.steps) alive x y) r) }
{
    match op {
        BinaryOp::Div => divide(work, asked, op, check, alive, x, y),
        BinaryOp::Rem => divide(work, asked, op, check, alive, x, y),
        _ => one(work, Step::Binary(op, x, y), alive),
    }
}

// A quotient or a remainder.
fn divide(
    work: &mut Work,
    asked: Option<CheckId>,
    op: BinaryOp,
    check: Option<CheckId>,
    alive: u32,
    x: u32,
    y: u32,
) -> Result<Ends, NoMemory>
    ensures { IfOk result (λ r. IsMade work.old work.new
        (quotient asked op check (length work.old.steps) alive x y) r) }
{
    let zero = emit(work, Step::Int(0))?;
    let same = emit(work, Step::Binary(BinaryOp::Equal, y, zero))?;
    let nonzero = emit(work, Step::Not(same))?;
    let going = demand(work, asks(asked, check), alive, nonzero)?;
    one(work, Step::Binary(op, x, y), going.alive)
}
