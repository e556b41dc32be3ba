//! The sorts of expressions, read off their forms.

ghost use Rattle.std.specs.Prelude.{◌≡◌, ◌++◌, ◌∷◌, [], IfOk, OnOk, drop, map, slice_get};
ghost use Rattle.pp_prog.specs.ExprSorts.{gives};
ghost use Rattle.pp_prog.specs.Results as spec;
ghost use Rattle.pp_prog.specs.Results.{bind_each, binds, fields_of_ctor, result_of, unary_result};
ghost use Rattle.pp_prog.specs.Sorts.{param_sorts};
ghost use Rattle.pp_checks.specs.Rules as rules;

use crate::NoMemory;
use crate::scope::truncate;
use pp_list::{Items, at};
use pp_operators::{BinaryOp, OperatorClass, UnaryOp, class_of};
use pp_prog::{
    Case, Ctor, CtorId, Expr, Function, FunctionId, Param, Pattern, Sort, Sorts, TypeTable,
};
use std::alloc::Global;

/// The sort at this place; Int where there is none.
fn sort_at(sorts: &[Sort], i: u32) -> Sort
    ensures { result ≡ spec.sort_at sorts.now i }
{
    match at(sorts, i as usize) {
        None => Sort::Int,
        Some(s) => *s,
    }
}

fn unary_sort(op: UnaryOp) -> Sort
    ensures { result ≡ unary_result op }
{
    match op {
        UnaryOp::Not => Sort::Bool,
        UnaryOp::Neg | UnaryOp::Flip => Sort::Int,
    }
}

/// The sort of an operator's result, at the sort of its left operand.
pub fn operator_sort(op: BinaryOp, left: Sort) -> Sort
    ensures { result ≡ gives op left }
{
    match class_of(op) {
        OperatorClass::Equality | OperatorClass::Order | OperatorClass::Logic => Sort::Bool,
        OperatorClass::Sum
        | OperatorClass::Product
        | OperatorClass::Quotient
        | OperatorClass::Bitwise
        | OperatorClass::Shift => left,
    }
}

/// The sort of a tree with this constructor.
fn tree_sort(ctors: &[Ctor], c: CtorId) -> Sort
    ensures { result ≡ spec.tree_result (slice_get ctors.now c.0) }
{
    match at(ctors, c.0 as usize) {
        None => Sort::Int,
        Some(c) => Sort::Tree(c.of),
    }
}

/// The sort of a call's result.
fn call_sort(functions: &[Function], g: FunctionId) -> Sort
    ensures { result ≡ spec.call_result (slice_get functions.now g.0) }
{
    match at(functions, g.0 as usize) {
        None => Sort::Int,
        Some(f) => f.result,
    }
}

/// The sorts of a constructor's fields.
pub fn fields_of(ctors: &[Ctor], c: CtorId) -> &[Sort]
    ensures { result.now ≡ fields_of_ctor (slice_get ctors.now c.0) }
{
    match at(ctors, c.0 as usize) {
        None => &[],
        Some(c) => c.fields.as_slice(),
    }
}

/// The sort of field k of a tree, whose datatype has one constructor.
pub fn field_sort(types: &TypeTable, s: Sort, k: u32) -> Sort
    ensures { result ≡ spec.field_result types.now s k }
{
    match s {
        Sort::Int | Sort::Bool => Sort::Int,
        Sort::Tree(d) => match at(types.datatypes.as_slice(), d.0 as usize) {
            None => Sort::Int,
            Some(t) => sort_at(fields_of(types.ctors.as_slice(), t.first), k),
        },
    }
}

/// Adds the sorts of the variables that the pattern binds at a value of this sort.
#[cycle(bind)]
fn bind(ctors: &[Ctor], pattern: &Pattern, s: Sort, scope: &mut Sorts) -> Result<(), NoMemory>
    ensures { OnOk result (scope.new ≡ scope.old ++ binds ctors.now pattern.now s) }
{
    match pattern {
        Pattern::Any => Ok(()),
        Pattern::Int(_) => Ok(()),
        Pattern::Bool(_) => Ok(()),
        Pattern::Bind(inner) => {
            scope.push(s)?;
            bind(ctors, inner.get(), s, scope)
        }
        Pattern::Ctor(c, patterns) => {
            bind_all(ctors, patterns.as_slice(), fields_of(ctors, *c), scope)
        }
    }
}

/// Adds the sorts of the variables that the patterns bind at values of these sorts.
#[cycle(bind)]
fn bind_all(
    ctors: &[Ctor],
    patterns: &[Pattern],
    sorts: &[Sort],
    scope: &mut Sorts,
) -> Result<(), NoMemory>
    ensures { OnOk result (scope.new ≡ scope.old ++ bind_each (map (binds ctors.now) patterns.now) sorts.now) }
{
    for i in 0..patterns.len() {
        bind_at(ctors, &patterns[i], sorts, i, scope)?;
    }
    Ok(())
}

/// Adds the sorts of the variables that the pattern binds at a value of the sort at this place, if there is one.
#[cycle(bind)]
fn bind_at(
    ctors: &[Ctor],
    pattern: &Pattern,
    sorts: &[Sort],
    i: usize,
    scope: &mut Sorts,
) -> Result<(), NoMemory>
    ensures { OnOk result (scope.new ≡ scope.old ++ bind_each (binds ctors.now pattern.now ∷ []) (drop i sorts.now)) }
{
    match at(sorts, i) {
        None => Ok(()),
        Some(s) => bind(ctors, pattern, *s, scope),
    }
}

/// The sort of an expression, with the sorts of the variables in scope, which are the same afterwards.
#[cycle(sort)]
fn sort_of(
    types: &TypeTable,
    functions: &[Function],
    e: &Expr,
    scope: &mut Sorts,
) -> Result<Sort, NoMemory>
    ensures told { IfOk result (λ s. s ≡ result_of types.now functions.now e.now scope.old) }
    ensures kept { OnOk result (scope.new ≡ scope.old) }
{
    match e {
        Expr::Int(_) => Ok(Sort::Int),
        Expr::Bool(_) => Ok(Sort::Bool),
        Expr::Var(i) => Ok(sort_at(scope.as_slice(), *i)),
        Expr::Unary(op, _) => Ok(unary_sort(*op)),
        Expr::Binary(op, a, _, _) => {
            let left = sort_of(types, functions, a.get(), scope)?;
            Ok(operator_sort(*op, left))
        }
        Expr::Construct(c, _) => Ok(tree_sort(types.ctors.as_slice(), *c)),
        Expr::Field(e, k) => {
            let s = sort_of(types, functions, e.get(), scope)?;
            Ok(field_sort(types, s, *k))
        }
        Expr::If(_, a, _) => sort_of(types, functions, a.get(), scope),
        Expr::Match(e, cases, _) => {
            let s = sort_of(types, functions, e.get(), scope)?;
            first_sort(types, functions, cases.as_slice(), s, scope)
        }
        Expr::Val(bound, rest) => {
            let s = sort_of(types, functions, bound.get(), scope)?;
            scope.push(s)?;
            let result = sort_of(types, functions, rest.get(), scope)?;
            let _ = scope.pop();
            Ok(result)
        }
        Expr::Assert(_, _, rest) => sort_of(types, functions, rest.get(), scope),
        Expr::Call { callee, .. } => Ok(call_sort(functions, *callee)),
    }
}

/// The sort of the first case's body, at a matched value of this sort.
#[cycle(sort)]
fn first_sort(
    types: &TypeTable,
    functions: &[Function],
    cases: &[Case],
    s: Sort,
    scope: &mut Sorts,
) -> Result<Sort, NoMemory>
    ensures told { IfOk result (λ r. r ≡ spec.first_result types.now functions.now
        (map (spec.body types.now functions.now) cases.now) s scope.old) }
    ensures kept { OnOk result (scope.new ≡ scope.old) }
{
    match at(cases, 0) {
        None => Ok(Sort::Int),
        Some(case) => {
            let depth = scope.len();
            bind(types.ctors.as_slice(), &case.pattern, s, scope)?;
            let result = sort_of(types, functions, &case.body, scope)?;
            truncate(scope, depth);
            Ok(result)
        }
    }
}

/// The sorts of the parameters.
fn sorts_of_params(alloc: Global, params: &[Param]) -> Result<Sorts, NoMemory>
    ensures { IfOk result (λ sorts. sorts ≡ param_sorts params.now) }
{
    let mut sorts = Items::new(alloc);
    for p in params {
        sorts.push(p.sort)?;
    }
    Ok(sorts)
}

/// The sorts of the components of the function's measure.
pub(crate) fn measure_sorts(
    alloc: Global,
    types: &TypeTable,
    functions: &[Function],
    f: &Function,
) -> Result<Sorts, NoMemory>
    ensures { IfOk result (λ sorts. sorts ≡ rules.measure_sorts types.now functions.now f.now) }
{
    let mut scope = sorts_of_params(alloc, f.params.as_slice())?;
    let mut sorts = Items::new(alloc);
    for e in f.measure.as_slice() {
        let s = sort_of(types, functions, e, &mut scope)?;
        sorts.push(s)?;
    }
    Ok(sorts)
}
