//! The visit of an expression: the shape of its value, and what is counted.

ghost use Rattle.std.specs.Prelude.{◌≡◌, IfOk, OnOk, map};
ghost use Rattle.std.specs.Option.{option_map};
ghost use Rattle.pp_estimate.specs.Counted.{counted};
ghost use Rattle.pp_estimate.specs.Place.{IsSound, place_arm, place_visit};
ghost use Rattle.pp_estimate.specs.Visits.{all_events, arms, guard_events, matched, shape_of, visits};

use crate::NoMemory;
use crate::binding::bind;
use crate::counts::{Counts, add_call_node, add_node};
use crate::frames::call;
use crate::memo::Memo;
use crate::nodes::{constructed, selected, variable, weighed};
use crate::place::Place;
use crate::shape::{Shape, Shapes, first_sort, tallest_of, truncate, unary_sort};
use crate::weights::{binary_extra, choice_extra};
use pp_checks::operator_sort;
use pp_list::Items;
use pp_operators::unary_gates;
use pp_prog::{Case, Expr, Sort};
use std::alloc::Global;

/// The visit of an expression: the shape of its value, with the components of the frame's measure and the shapes of
/// the variables in scope, which are the same afterwards.
#[cycle(visit)]
#[tactic(auto, using(crate::proofs::Merged::counted_append))]
pub(crate) fn visit(
    alloc: Global,
    place: Place<'_>,
    memo: &mut Memo,
    counts: &mut Counts,
    old: &[Shape],
    env: &mut Shapes,
    e: &Expr,
) -> Result<Shape, NoMemory>
    requires { IsSound place memo.old counts.old }
    ensures shape { IfOk result (λ s. s ≡ (place_visit place.entry e.now old.now env.old).shape) }
    ensures counted { OnOk result (counts.new
        ≡ counted counts.old (place_visit place.entry e.now old.now env.old).events) }
    ensures kept { OnOk result (env.new ≡ env.old) }
    ensures sound { OnOk result (IsSound place.entry memo.new counts.new) }
{
    match e {
        Expr::Int(_) => Ok(weighed(counts, Sort::Int, 0, 0)),
        Expr::Bool(_) => Ok(weighed(counts, Sort::Bool, 0, 0)),
        Expr::Var(i) => Ok(variable(counts, env.as_slice(), *i)),
        Expr::Unary(op, a) => {
            visit(alloc, place, memo, counts, old, env, a.get())?;
            Ok(weighed(counts, unary_sort(*op), 0, unary_gates(*op)))
        }
        Expr::Binary(op, a, b, _) => {
            let left = visit(alloc, place, memo, counts, old, env, a.get())?;
            let right = visit(alloc, place, memo, counts, old, env, b.get())?;
            let extra = binary_extra(alloc, place.types, &mut memo.rows, *op, left, right)?;
            Ok(weighed(counts, operator_sort(*op, left.sort), 0, extra))
        }
        Expr::Construct(c, args) => {
            let shapes = visit_all(alloc, place, memo, counts, old, env, args.as_slice())?;
            Ok(constructed(place.types, counts, *c, shapes.as_slice()))
        }
        Expr::Field(e, k) => {
            let whole = visit(alloc, place, memo, counts, old, env, e.get())?;
            Ok(selected(place.types, counts, whole, *k))
        }
        Expr::If(c, a, b) => {
            visit(alloc, place, memo, counts, old, env, c.get())?;
            let left = visit(alloc, place, memo, counts, old, env, a.get())?;
            let right = visit(alloc, place, memo, counts, old, env, b.get())?;
            let height = left.height.max(right.height);
            let extra = choice_extra(alloc, place.types, &mut memo.rows, left.sort, height)?;
            Ok(weighed(counts, left.sort, height, extra))
        }
        Expr::Match(e, cases, _) => {
            let s = visit(alloc, place, memo, counts, old, env, e.get())?;
            visit_cases(alloc, place, memo, counts, old, env, s, cases.as_slice())
        }
        Expr::Val(bound, rest) => {
            let s = visit(alloc, place, memo, counts, old, env, bound.get())?;
            env.push(s)?;
            let result = visit(alloc, place, memo, counts, old, env, rest.get())?;
            let _ = env.pop();
            add_node(counts, 0);
            Ok(result)
        }
        Expr::Assert(_, c, rest) => {
            visit(alloc, place, memo, counts, old, env, c.get())?;
            let result = visit(alloc, place, memo, counts, old, env, rest.get())?;
            add_node(counts, 0);
            Ok(result)
        }
        Expr::Call {
            callee,
            args,
            measure,
            ..
        } => {
            let shapes = visit_all(alloc, place, memo, counts, old, env, args.as_slice())?;
            add_call_node(counts, *callee);
            let given = shapes.as_slice();
            call(alloc, place, memo, counts, *callee, *measure, old, given)
        }
    }
}

/// The visits of expressions, one after another: their shapes.
#[cycle(visit)]
pub(crate) fn visit_all(
    alloc: Global,
    place: Place<'_>,
    memo: &mut Memo,
    counts: &mut Counts,
    old: &[Shape],
    env: &mut Shapes,
    es: &[Expr],
) -> Result<Shapes, NoMemory>
    requires { IsSound place memo.old counts.old }
    ensures shape { IfOk result (λ ss. ss ≡ map shape_of
        (visits (map (place_visit place.entry) es.now) old.now env.old)) }
    ensures counted { OnOk result (counts.new
        ≡ counted counts.old (all_events (visits (map (place_visit place.entry) es.now) old.now env.old))) }
    ensures kept { OnOk result (env.new ≡ env.old) }
    ensures sound { OnOk result (IsSound place.entry memo.new counts.new) }
{
    let mut shapes = Items::new(alloc);
    for e in es {
        let s = visit(alloc, place, memo, counts, old, env, e)?;
        shapes.push(s)?;
    }
    Ok(shapes)
}

/// The visit of the cases of a match, at the shape of the matched value.
#[cycle(visit)]
fn visit_cases(
    alloc: Global,
    place: Place<'_>,
    memo: &mut Memo,
    counts: &mut Counts,
    old: &[Shape],
    env: &mut Shapes,
    s: Shape,
    cases: &[Case],
) -> Result<Shape, NoMemory>
    requires { IsSound place memo.old counts.old }
    ensures shape { IfOk result (λ r. r ≡ (matched place.entry.types.now
        (arms (map (place_arm place.entry) cases.now) s old.now env.old)).shape) }
    ensures counted { OnOk result (counts.new
        ≡ counted counts.old (matched place.entry.types.now
        (arms (map (place_arm place.entry) cases.now) s old.now env.old)).events) }
    ensures kept { OnOk result (env.new ≡ env.old) }
    ensures sound { OnOk result (IsSound place.entry memo.new counts.new) }
{
    let shapes = visit_each(alloc, place, memo, counts, old, env, s, cases)?;
    let sort = first_sort(shapes.as_slice());
    let height = tallest_of(shapes.as_slice());
    let extra = choice_extra(alloc, place.types, &mut memo.rows, sort, height)?;
    add_node(counts, extra.saturating_mul(cases.len() as u64));
    Ok(Shape { sort, height })
}

/// The visits of the cases, one after another: the shapes of their bodies.
#[cycle(visit)]
fn visit_each(
    alloc: Global,
    place: Place<'_>,
    memo: &mut Memo,
    counts: &mut Counts,
    old: &[Shape],
    env: &mut Shapes,
    s: Shape,
    cases: &[Case],
) -> Result<Shapes, NoMemory>
    requires { IsSound place memo.old counts.old }
    ensures shape { IfOk result (λ ss. ss ≡ map shape_of
        (arms (map (place_arm place.entry) cases.now) s old.now env.old)) }
    ensures counted { OnOk result (counts.new
        ≡ counted counts.old (all_events (arms (map (place_arm place.entry) cases.now) s old.now env.old))) }
    ensures kept { OnOk result (env.new ≡ env.old) }
    ensures sound { OnOk result (IsSound place.entry memo.new counts.new) }
{
    let mut shapes = Items::new(alloc);
    for c in cases {
        let r = visit_one(alloc, place, memo, counts, old, env, s, c)?;
        shapes.push(r)?;
    }
    Ok(shapes)
}

/// The visit of a case: its pattern, its guard and its body.
#[cycle(visit)]
#[tactic(auto, using(crate::proofs::Merged::counted_append))]
fn visit_one(
    alloc: Global,
    place: Place<'_>,
    memo: &mut Memo,
    counts: &mut Counts,
    old: &[Shape],
    env: &mut Shapes,
    s: Shape,
    c: &Case,
) -> Result<Shape, NoMemory>
    requires { IsSound place memo.old counts.old }
    ensures shape { IfOk result (λ r. r ≡ (place_arm place.entry c.now s old.now env.old).shape) }
    ensures counted { OnOk result (counts.new
        ≡ counted counts.old (place_arm place.entry c.now s old.now env.old).events) }
    ensures kept { OnOk result (env.new ≡ env.old) }
    ensures sound { OnOk result (IsSound place.entry memo.new counts.new) }
{
    let depth = env.len();
    bind(place.types.ctors.as_slice(), counts, &c.pattern, s, env)?;
    visit_guard(alloc, place, memo, counts, old, env, &c.guard)?;
    let result = visit(alloc, place, memo, counts, old, env, &c.body)?;
    truncate(env, depth);
    Ok(result)
}

/// The visit of a guard, if one is written.
#[cycle(visit)]
pub(crate) fn visit_guard(
    alloc: Global,
    place: Place<'_>,
    memo: &mut Memo,
    counts: &mut Counts,
    old: &[Shape],
    env: &mut Shapes,
    guard: &Option<Expr>,
) -> Result<(), NoMemory>
    requires { IsSound place memo.old counts.old }
    ensures counted { OnOk result (counts.new
        ≡ counted counts.old (guard_events (option_map (place_visit place.entry) guard.now) old.now env.old)) }
    ensures kept { OnOk result (env.new ≡ env.old) }
    ensures sound { OnOk result (IsSound place.entry memo.new counts.new) }
{
    match guard {
        None => Ok(()),
        Some(e) => {
            visit(alloc, place, memo, counts, old, env, e)?;
            Ok(())
        }
    }
}
