//! Typing of expressions: a function for each form that has parts, and what is made of the typed parts.

ghost use Rattle.std.specs.Prelude.{◌≡◌, [], None, OnOk, Some, length, map, option_map};
ghost use Rattle.pp_fault.specs.Part.{Tells};
ghost use Rattle.pp_generic.specs.declared.expected.Expected.TheVariants as expected;
ghost use Rattle.pp_tree.specs.Plain.{apply, binary, choice, matching, val_in};
ghost use Rattle.pp_tree.specs.Shown.{case_of, case_trees, pattern_of, tree_of, trees, type_of, type_trees};
ghost use Rattle.pp_rules.specs.Elab.{condition, elab_arm, name_at};
ghost use Rattle.pp_typing.specs.Views.{TellsBoth, arg_typing, args_typing, arm_typing, cases_typing, env_of};
ghost use Rattle.pp_typing.specs.Views.{part_typing, scope_of, typing};

use crate::apply::{finished, started, taken};
use crate::arms::{alike, guarded, matched, truncate, unguarded};
use crate::checks::{agreed, flaw, name_at, of_sort, typed, val_expected};
use crate::lookup::applied_by;
use crate::name::{named, selected};
use crate::node::{asserted, chosen, negated, operated, valued};
use crate::operators::{admits, right_expected, takes, unary_sort};
use crate::patterns::pattern;
use crate::scope::{clashes, depth};
use crate::{Context, Local};
use pp_fault::{Halt, Rule};
use pp_generic::{Expected, Found, copy, expect};
use pp_list::{Boxed, Items};
use pp_tree::{BinaryOp, Case, Expr, ExprKind, Pattern, TypeText};
use pp_typed::{GenericSort, TypedCase, TypedCases, TypedExpr, TypedExprs, TypedKind};
use std::alloc::Global;

/// Types an expression, of whose values in scope those from `fresh` on are the `val`s that reach it.
#[cycle(typing)]
pub(crate) fn expr<'a>(
    alloc: Global,
    context: &Context<'_, 'a>,
    e: &Expr<'a>,
    scope: &mut Items<Local<'a>>,
    fresh: usize,
    expected: &Expected,
) -> Result<Boxed<TypedExpr>, Halt>
    ensures told { Tells result (typing context.now scope.old fresh expected.now (tree_of e.now)) }
    ensures kept { OnOk result (scope.new ≡ scope.old) }
{
    let at = e.at;
    match e.kind {
        ExprKind::Int(n) => {
            let number = typed(alloc, context, at, GenericSort::Int, TypedKind::Int(n))?;
            agreed(alloc, context, expected, context.function, number)
        }
        ExprKind::Bool(b) => {
            let truth = typed(alloc, context, at, GenericSort::Bool, TypedKind::Bool(b))?;
            agreed(alloc, context, expected, context.function, truth)
        }
        ExprKind::Name(w) => named(alloc, context, at, w, scope.as_slice(), expected),
        ExprKind::Apply(w, types, args) => {
            application(alloc, context, at, w, types, args, scope, expected)
        }
        ExprKind::Field(base, w) => {
            let base = part(alloc, context, base, scope)?;
            selected(alloc, context, at, w, base, expected)
        }
        ExprKind::Unary(op, a) => {
            let operand = part(alloc, context, a, scope)?;
            let name = name_at(context, a);
            let operand = of_sort(
                alloc,
                context,
                Rule::Mismatch,
                &unary_sort(op),
                name,
                operand,
            )?;
            negated(alloc, context, at, expected, op, operand)
        }
        ExprKind::Binary(op, a, b) => binary(alloc, context, at, op, a, b, scope, expected),
        ExprKind::If(c, a, b) => choice(alloc, context, at, c, a, b, scope, expected),
        ExprKind::Val(w, t, a, b) => {
            value(alloc, context, at, w, &t, a, b, scope, fresh, expected)
        }
        ExprKind::Assert(c, rest) => {
            let test = condition(alloc, context, c, scope)?;
            let rest = expr(alloc, context, rest, scope, fresh, expected)?;
            asserted(alloc, context, at, test, rest)
        }
        ExprKind::Match(e, cases) => matching(alloc, context, at, e, cases, scope, expected),
    }
}

/// Types a part of which nothing is expected.
#[cycle(typing)]
pub(crate) fn part<'a>(
    alloc: Global,
    context: &Context<'_, 'a>,
    e: &Expr<'a>,
    scope: &mut Items<Local<'a>>,
) -> Result<Boxed<TypedExpr>, Halt>
    ensures told { Tells result (part_typing context.now scope.old expected.Open (tree_of e.now)) }
    ensures kept { OnOk result (scope.new ≡ scope.old) }
{
    let inner = depth(scope.as_slice());
    expr(alloc, context, e, scope, inner, &Expected::Open)
}

/// Types a condition, which is Boolean.
#[cycle(typing)]
pub(crate) fn condition<'a>(
    alloc: Global,
    context: &Context<'_, 'a>,
    c: &Expr<'a>,
    scope: &mut Items<Local<'a>>,
) -> Result<Boxed<TypedExpr>, Halt>
    ensures told { Tells result (condition (env_of context.now) (name_at (env_of context.now) (tree_of c.now))
        (part_typing context.now scope.old expected.Open (tree_of c.now))) }
    ensures kept { OnOk result (scope.new ≡ scope.old) }
{
    let test = part(alloc, context, c, scope)?;
    let name = name_at(context, c);
    of_sort(
        alloc,
        context,
        Rule::NotABoolean,
        &GenericSort::Bool,
        name,
        test,
    )
}

/// Types the two operands of an operator.
#[cycle(typing)]
fn binary<'a>(
    alloc: Global,
    context: &Context<'_, 'a>,
    at: u32,
    op: BinaryOp,
    a: &Expr<'a>,
    b: &Expr<'a>,
    scope: &mut Items<Local<'a>>,
    expected: &Expected,
) -> Result<Boxed<TypedExpr>, Halt>
    ensures told { Tells result (part_typing context.now scope.old expected.now (binary at op (tree_of a.now)
        (tree_of b.now))) }
    ensures kept { OnOk result (scope.new ≡ scope.old) }
{
    let left = part(alloc, context, a, scope)?;
    if !admits(op, &left.get().of) {
        return flaw(
            alloc,
            context,
            Rule::Mismatch,
            name_at(context, a),
            left.get().at,
        );
    }
    let inner = depth(scope.as_slice());
    let wanted = right_expected(alloc, op, &left.get().of)?;
    let right = expr(alloc, context, b, scope, inner, &wanted)?;
    if !takes(op, &left.get().of, &right.get().of) {
        return flaw(
            alloc,
            context,
            Rule::Mismatch,
            name_at(context, b),
            right.get().at,
        );
    }
    operated(alloc, context, at, expected, op, left, right)
}

/// Types the condition and the two results of an `if`.
#[cycle(typing)]
fn choice<'a>(
    alloc: Global,
    context: &Context<'_, 'a>,
    at: u32,
    c: &Expr<'a>,
    a: &Expr<'a>,
    b: &Expr<'a>,
    scope: &mut Items<Local<'a>>,
    expected: &Expected,
) -> Result<Boxed<TypedExpr>, Halt>
    ensures told { Tells result (part_typing context.now scope.old expected.now
        (choice at (tree_of c.now) (tree_of a.now) (tree_of b.now))) }
    ensures kept { OnOk result (scope.new ≡ scope.old) }
{
    let inner = depth(scope.as_slice());
    let test = condition(alloc, context, c, scope)?;
    let first = expr(alloc, context, a, scope, inner, expected)?;
    let second = expr(alloc, context, b, scope, inner, expected)?;
    chosen(alloc, context, at, test, first, name_at(context, b), second)
}

/// Types a `val` and what follows it.
#[cycle(typing)]
fn value<'a>(
    alloc: Global,
    context: &Context<'_, 'a>,
    at: u32,
    name: &'a str,
    text: &Option<TypeText<'a>>,
    a: &Expr<'a>,
    b: &Expr<'a>,
    scope: &mut Items<Local<'a>>,
    fresh: usize,
    expected: &Expected,
) -> Result<Boxed<TypedExpr>, Halt>
    ensures told { Tells result (typing context.now scope.old fresh expected.now
        (val_in at name.now (option_map type_of text.now) (tree_of a.now) (tree_of b.now))) }
    ensures kept { OnOk result (scope.new ≡ scope.old) }
{
    if clashes(scope.as_slice(), fresh, name) {
        return flaw(alloc, context, Rule::Duplicate, name, at);
    }
    let wanted = val_expected(alloc, context, text)?;
    let inner = depth(scope.as_slice());
    let value = expr(alloc, context, a, scope, inner, &wanted)?;
    let of = copy(alloc, &value.get().of)?;
    scope.push(Local { name, of })?;
    let rest = expr(alloc, context, b, scope, fresh, expected)?;
    let _ = scope.pop();
    valued(alloc, context, at, value, rest)
}

/// Types an argument for a parameter, with what is found of the type parameters so far.
#[cycle(typing)]
fn argument<'a>(
    alloc: Global,
    context: &Context<'_, 'a>,
    e: &Expr<'a>,
    param: &GenericSort,
    scope: &mut Items<Local<'a>>,
    found: &mut Found,
) -> Result<Boxed<TypedExpr>, Halt>
    ensures told { TellsBoth result found.new (arg_typing context.now scope.old (tree_of e.now) param.now found.old) }
    ensures kept { OnOk result (scope.new ≡ scope.old) }
{
    let inner = depth(scope.as_slice());
    let wanted = expect(alloc, found.as_slice(), param)?;
    let arg = expr(alloc, context, e, scope, inner, &wanted)?;
    taken(alloc, context, param, name_at(context, e), found, arg)
}

/// Types an argument for each parameter, from left to right.
#[cycle(typing)]
fn arguments<'a>(
    alloc: Global,
    context: &Context<'_, 'a>,
    es: &[Expr<'a>],
    params: &[GenericSort],
    scope: &mut Items<Local<'a>>,
    found: &mut Found,
) -> Result<TypedExprs, Halt>
    requires { length es.now ≡ length params.now }
    ensures told { TellsBoth result found.new (args_typing context.now scope.old [] es.now params.now found.old) }
    ensures kept { OnOk result (scope.new ≡ scope.old) }
{
    let mut done = Items::new(alloc);
    for i in 0..es.len() {
        let arg = argument(alloc, context, &es[i], &params[i], scope, found)?;
        done.push(arg.into_inner())?;
    }
    Ok(done)
}

/// Types the application of a name.
#[cycle(typing)]
fn application<'a>(
    alloc: Global,
    context: &Context<'_, 'a>,
    at: u32,
    name: &'a str,
    types: &[TypeText<'a>],
    es: &[Expr<'a>],
    scope: &mut Items<Local<'a>>,
    expected: &Expected,
) -> Result<Boxed<TypedExpr>, Halt>
    ensures told { Tells result (part_typing context.now scope.old expected.now
        (apply at name.now (type_trees (map type_of types.now)) (trees (map tree_of es.now)))) }
    ensures kept { OnOk result (scope.new ≡ scope.old) }
{
    let Some(callee) = applied_by(alloc, context.names, name)? else {
        return flaw(alloc, context, Rule::Unknown, name, at);
    };
    if es.len() != callee.params.len() {
        return flaw(alloc, context, Rule::Arity, name, at);
    }
    let mut found = started(alloc, context, at, name, types, &callee, expected)?;
    let args = arguments(
        alloc,
        context,
        es,
        callee.params.as_slice(),
        scope,
        &mut found,
    )?;
    finished(alloc, context, at, name, callee, args, found, expected)
}

/// Types a case without a guard, after these.
#[cycle(typing)]
fn plain_arm<'a>(
    alloc: Global,
    context: &Context<'_, 'a>,
    p: &Pattern<'a>,
    body: &Expr<'a>,
    done: &[TypedCase],
    sort: &GenericSort,
    scope: &mut Items<Local<'a>>,
    expected: &Expected,
) -> Result<Boxed<TypedCase>, Halt>
    ensures told { Tells result (elab_arm (env_of context.now) done.now (pattern_of p.now) None (tree_of body.now)
        (scope_of scope.old) expected.now sort.now) }
    ensures kept { OnOk result (scope.new ≡ scope.old) }
{
    let outer = scope.len();
    let fresh = depth(scope.as_slice());
    let pattern = pattern(alloc, context, p, sort, scope, fresh)?;
    let inner = depth(scope.as_slice());
    let value = expr(alloc, context, body, scope, inner, expected)?;
    let value = alike(alloc, context, done, name_at(context, body), value)?;
    truncate(scope, outer);
    Ok(unguarded(alloc, pattern, value)?)
}

/// Types a case with a guard, after these.
#[cycle(typing)]
fn guarded_arm<'a>(
    alloc: Global,
    context: &Context<'_, 'a>,
    p: &Pattern<'a>,
    test: &Expr<'a>,
    body: &Expr<'a>,
    done: &[TypedCase],
    sort: &GenericSort,
    scope: &mut Items<Local<'a>>,
    expected: &Expected,
) -> Result<Boxed<TypedCase>, Halt>
    ensures told { Tells result (elab_arm (env_of context.now) done.now (pattern_of p.now) (Some (tree_of test.now))
        (tree_of body.now) (scope_of scope.old) expected.now sort.now) }
    ensures kept { OnOk result (scope.new ≡ scope.old) }
{
    let outer = scope.len();
    let fresh = depth(scope.as_slice());
    let pattern = pattern(alloc, context, p, sort, scope, fresh)?;
    let guard = condition(alloc, context, test, scope)?;
    let inner = depth(scope.as_slice());
    let value = expr(alloc, context, body, scope, inner, expected)?;
    let value = alike(alloc, context, done, name_at(context, body), value)?;
    truncate(scope, outer);
    Ok(guarded(alloc, pattern, guard, value)?)
}

/// Types a case after these: its pattern, its guard and its body, whose sort is that of the bodies before it.
#[cycle(typing)]
fn arm<'a>(
    alloc: Global,
    context: &Context<'_, 'a>,
    case: &Case<'a>,
    done: &[TypedCase],
    sort: &GenericSort,
    scope: &mut Items<Local<'a>>,
    expected: &Expected,
) -> Result<Boxed<TypedCase>, Halt>
    ensures told { Tells result (arm_typing context.now scope.old expected.now sort.now done.now case.now) }
    ensures kept { OnOk result (scope.new ≡ scope.old) }
{
    match &case.guard {
        None => plain_arm(
            alloc,
            context,
            &case.pattern,
            &case.body,
            done,
            sort,
            scope,
            expected,
        ),
        Some(test) => {
            guarded_arm(
                alloc,
                context,
                &case.pattern,
                test,
                &case.body,
                done,
                sort,
                scope,
                expected,
            )
        }
    }
}

/// Types the cases of a match on a value of this sort.
#[cycle(typing)]
fn arms<'a>(
    alloc: Global,
    context: &Context<'_, 'a>,
    cases: &[Case<'a>],
    sort: &GenericSort,
    scope: &mut Items<Local<'a>>,
    expected: &Expected,
) -> Result<TypedCases, Halt>
    ensures told { Tells result (cases_typing context.now scope.old expected.now sort.now [] cases.now) }
    ensures kept { OnOk result (scope.new ≡ scope.old) }
{
    let mut done = Items::new(alloc);
    for i in 0..cases.len() {
        let arm = arm(
            alloc,
            context,
            &cases[i],
            done.as_slice(),
            sort,
            scope,
            expected,
        )?;
        done.push(arm.into_inner())?;
    }
    Ok(done)
}

/// Types a match.
#[cycle(typing)]
fn matching<'a>(
    alloc: Global,
    context: &Context<'_, 'a>,
    at: u32,
    e: &Expr<'a>,
    cases: &[Case<'a>],
    scope: &mut Items<Local<'a>>,
    expected: &Expected,
) -> Result<Boxed<TypedExpr>, Halt>
    ensures told { Tells result (part_typing context.now scope.old expected.now
        (matching at (tree_of e.now) (case_trees (map case_of cases.now)))) }
    ensures kept { OnOk result (scope.new ≡ scope.old) }
{
    let value = part(alloc, context, e, scope)?;
    let arms = arms(alloc, context, cases, &value.get().of, scope, expected)?;
    matched(alloc, context, at, value, arms)
}
