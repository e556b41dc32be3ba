//! Expressions at the arguments of an instance, with the numbers of their checks.

ghost use Rattle.std.specs.Prelude.{◌≡◌, ◌↔◌, ◌<◌, ◌^◌, ◌++◌, ◌∷◌, [], IfOk, IsTrue, length, map, slice_get};
ghost use Rattle.pp_translation.specs.Numbers.{ctor_number, function_number, sort_at};
ghost use Rattle.pp_translate.specs.Target.{setting};
ghost use Rattle.pp_numbers.specs.Tables.{AreTables};
ghost use Rattle.pp_prog.specs.Valid.{Covers};
ghost use Rattle.pp_prog.specs.declared.expr.Expr.TheVariants as prog;
ghost use Rattle.pp_translation.specs.Numbered as spec;
ghost use Rattle.pp_typed.specs.Put.{put};

use crate::NoMemory;
use crate::covered::is_covered;
use crate::patterns::pattern_at;
use crate::sites::{add_check, check_if, descends, has_pre};
use crate::target::Target;
use pp_list::{Boxed, Items};
use pp_numbers::{puts, sort_at};
use pp_operators::is_division;
use pp_prog::{Case, Cases, CheckKind, CtorId, Expr, Exprs, FunctionId, Patterns};
use pp_translation::{CheckAt, Frame};
use pp_typed::{GenericSort, Typed, TypedCase, TypedExpr, TypedKind};
use std::alloc::Global;

/// Adds the pattern of a case, where it has no guard.
fn add_unguarded(
    alloc: Global,
    typed: &Typed,
    target: &Target,
    sort: &GenericSort,
    c: &TypedCase,
    patterns: &mut Patterns,
) -> Result<(), NoMemory>
    requires { AreTables typed.now.ctors target.now.numbers }
    ensures { IfOk result (λ _. patterns.new ≡ patterns.old
        ++ spec.unguarded_case typed.now target.now.numbers.roots sort.now c.now) }
{
    match &c.guard {
        None => {
            let pattern = pattern_at(alloc, typed, &target.numbers, &c.pattern, sort)?;
            patterns.push(pattern)?;
            Ok(())
        }
        Some(_) => Ok(()),
    }
}

/// The patterns of the cases without a guard.
fn unguarded(
    alloc: Global,
    typed: &Typed,
    target: &Target,
    sort: &GenericSort,
    cases: &[TypedCase],
) -> Result<Patterns, NoMemory>
    requires { AreTables typed.now.ctors target.now.numbers }
    ensures { IfOk result (λ ps. ps ≡ spec.unguarded_at typed.now target.now.numbers.roots sort.now cases.now) }
{
    let mut patterns = Items::new(alloc);
    for c in cases {
        add_unguarded(alloc, typed, target, sort, c, &mut patterns)?;
    }
    Ok(patterns)
}

/// Whether the cases without a guard cover the sort of the matched value.
fn cover(
    alloc: Global,
    typed: &Typed,
    target: &Target,
    own: &Frame,
    matched: &TypedExpr,
    cases: &[TypedCase],
) -> Result<bool, NoMemory>
    requires { AreTables typed.now.ctors target.now.numbers }
    ensures { IfOk result (λ b. IsTrue b ↔ Covers target.now.types.ctors
        (sort_at target.now.numbers.roots own.now.args matched.now.of)
        (spec.unguarded_at typed.now target.now.numbers.roots (put own.now.args matched.now.of) cases.now)) }
{
    let args = own.args.as_slice();
    let sort = pp_generic::put(alloc, args, &matched.of)?;
    let patterns = unguarded(alloc, typed, target, &sort, cases)?;
    let whole = sort_at(alloc, &target.numbers, args, &matched.of)?;
    is_covered(alloc, &target.types, whole, patterns.as_slice())
}

/// The called function.
fn callee(
    alloc: Global,
    target: &Target,
    own: &Frame,
    f: u32,
    sorts: &[GenericSort],
) -> Result<FunctionId, NoMemory>
    requires { length target.now.numbers.functions < 2 ^ 31 }
    ensures { IfOk result (λ g. g ≡ function_number target.now.numbers.functions f (map (put own.now.args) sorts.now)) }
{
    Ok(
        target
            .numbers
            .function(f, puts(alloc, own.args.as_slice(), sorts)?),
    )
}

/// The constructor of the program.
fn ctor(
    alloc: Global,
    typed: &Typed,
    target: &Target,
    own: &Frame,
    c: u32,
    sorts: &[GenericSort],
) -> Result<CtorId, NoMemory>
    requires { AreTables typed.now.ctors target.now.numbers }
    ensures { IfOk result (λ k. k ≡ ctor_number typed.now.ctors target.now.numbers.roots c
        (map (put own.now.args) sorts.now)) }
{
    let args = puts(alloc, own.args.as_slice(), sorts)?;
    Ok(target.numbers.ctor(typed.ctors.as_slice(), c, args))
}

/// The call of a function, with the checks of its precondition and its measure.
fn call(
    alloc: Global,
    typed: &Typed,
    target: &Target,
    own: &Frame,
    e: &TypedExpr,
    f: u32,
    sorts: &[GenericSort],
    args: Exprs,
    checks: &mut Items<CheckAt>,
) -> Result<Expr, NoMemory>
    requires { AreTables typed.now.ctors target.now.numbers }
    ensures call { IfOk result
        (λ x. x ≡ spec.call typed.now (setting target.now) own.now e.now f
        (spec.callee typed.now (setting target.now) own.now f sorts.now) args checks.old) }
    ensures listed { IfOk result
        (λ _. checks.new ≡ spec.after_call typed.now (setting target.now) own.now e.now f
        (spec.callee typed.now (setting target.now) own.now f sorts.now) checks.old) }
{
    let callee = callee(alloc, target, own, f, sorts)?;
    let pre = check_if(has_pre(typed, f), own, CheckKind::Precondition, e, checks)?;
    let down = descends(typed, target, own, f, callee);
    let measure = check_if(down, own, CheckKind::Measure, e, checks)?;
    Ok(Expr::Call {
        callee,
        args,
        pre,
        measure,
    })
}

fn int(n: &i32) -> Expr
    ensures { result ≡ prog.Int n.now }
{
    Expr::Int(*n)
}

/// The expression of the program that a typed expression is. The only error is want of memory.
#[cycle(exprs)]
pub(crate) fn expr(
    alloc: Global,
    typed: &Typed,
    target: &Target,
    own: &Frame,
    e: &TypedExpr,
    checks: &mut Items<CheckAt>,
) -> Result<Expr, NoMemory>
    requires { AreTables typed.now.ctors target.now.numbers }
    ensures { IfOk result (λ x. spec.Translates typed.now (setting target.now) own.now e.now x checks.old checks.new) }
{
    match &e.kind {
        TypedKind::Int(n) => Ok(int(n)),
        TypedKind::Bool(b) => Ok(Expr::Bool(*b)),
        TypedKind::Local(i) => Ok(Expr::Var(*i)),
        TypedKind::Call(f, sorts, args) => {
            let args = exprs(alloc, typed, target, own, args.as_slice(), checks)?;
            let called = call(
                alloc,
                typed,
                target,
                own,
                e,
                *f,
                sorts.as_slice(),
                args,
                checks,
            )?;
            Ok(called)
        }
        TypedKind::Construct(c, sorts, args) => {
            let ctor = ctor(alloc, typed, target, own, *c, sorts.as_slice())?;
            let args = exprs(alloc, typed, target, own, args.as_slice(), checks)?;
            Ok(Expr::Construct(ctor, args))
        }
        TypedKind::Field(base, j) => {
            let base = expr(alloc, typed, target, own, base.get(), checks)?;
            Ok(Expr::Field(Boxed::new(alloc, base)?, *j))
        }
        TypedKind::Unary(op, a) => {
            let a = expr(alloc, typed, target, own, a.get(), checks)?;
            Ok(Expr::Unary(*op, Boxed::new(alloc, a)?))
        }
        TypedKind::Binary(op, a, b) => {
            let a = expr(alloc, typed, target, own, a.get(), checks)?;
            let b = expr(alloc, typed, target, own, b.get(), checks)?;
            let check = check_if(is_division(*op), own, CheckKind::Division, e, checks)?;
            Ok(Expr::Binary(*op, Boxed::new(alloc, a)?, Boxed::new(alloc, b)?, check))
        }
        TypedKind::If(c, a, b) => {
            let c = expr(alloc, typed, target, own, c.get(), checks)?;
            let a = expr(alloc, typed, target, own, a.get(), checks)?;
            let b = expr(alloc, typed, target, own, b.get(), checks)?;
            Ok(Expr::If(
                Boxed::new(alloc, c)?,
                Boxed::new(alloc, a)?,
                Boxed::new(alloc, b)?,
            ))
        }
        TypedKind::Match(matched, cases) => {
            let value = expr(alloc, typed, target, own, matched.get(), checks)?;
            let covered = cover(alloc, typed, target, own, matched.get(), cases.as_slice())?;
            let check = check_if(!covered, own, CheckKind::Match, e, checks)?;
            let sort = pp_generic::put(alloc, own.args.as_slice(), &matched.get().of)?;
            let cases = cases_of(alloc, typed, target, own, cases.as_slice(), &sort, checks)?;
            Ok(Expr::Match(Boxed::new(alloc, value)?, cases, check))
        }
        TypedKind::Val(bound, rest) => {
            let bound = expr(alloc, typed, target, own, bound.get(), checks)?;
            let rest = expr(alloc, typed, target, own, rest.get(), checks)?;
            Ok(Expr::Val(Boxed::new(alloc, bound)?, Boxed::new(alloc, rest)?))
        }
        TypedKind::Assert(c, rest) => {
            let c = expr(alloc, typed, target, own, c.get(), checks)?;
            let check = add_check(own, CheckKind::Assertion, e, checks)?;
            let rest = expr(alloc, typed, target, own, rest.get(), checks)?;
            Ok(Expr::Assert(check, Boxed::new(alloc, c)?, Boxed::new(alloc, rest)?))
        }
    }
}

/// The expressions of the program that typed expressions are.
#[cycle(exprs)]
pub(crate) fn exprs(
    alloc: Global,
    typed: &Typed,
    target: &Target,
    own: &Frame,
    es: &[TypedExpr],
    checks: &mut Items<CheckAt>,
) -> Result<Exprs, NoMemory>
    requires { AreTables typed.now.ctors target.now.numbers }
    ensures { IfOk result (λ xs. spec.TranslateAll typed.now (setting target.now) own.now es.now xs checks.old
        checks.new) }
{
    let mut done = Items::new(alloc);
    for e in es {
        done.push(expr(alloc, typed, target, own, e, checks)?)?;
    }
    Ok(done)
}

#[cycle(exprs)]
fn guard(
    alloc: Global,
    typed: &Typed,
    target: &Target,
    own: &Frame,
    guard: &Option<TypedExpr>,
    checks: &mut Items<CheckAt>,
) -> Result<Option<Expr>, NoMemory>
    requires { AreTables typed.now.ctors target.now.numbers }
    ensures { IfOk result (λ x. spec.TranslateGuard typed.now (setting target.now) own.now guard.now x checks.old
        checks.new) }
{
    match guard {
        None => Ok(None),
        Some(e) => Ok(Some(expr(alloc, typed, target, own, e, checks)?)),
    }
}

/// The case of the program that a typed case is, of a matched value of a sort.
#[cycle(exprs)]
fn case(
    alloc: Global,
    typed: &Typed,
    target: &Target,
    own: &Frame,
    c: &TypedCase,
    sort: &GenericSort,
    checks: &mut Items<CheckAt>,
) -> Result<Case, NoMemory>
    requires { AreTables typed.now.ctors target.now.numbers }
    ensures { IfOk result (λ y. spec.TranslateCase typed.now (setting target.now) own.now sort.now c.now y checks.old
        checks.new) }
{
    let pattern = pattern_at(alloc, typed, &target.numbers, &c.pattern, sort)?;
    let guard = guard(alloc, typed, target, own, &c.guard, checks)?;
    let body = expr(alloc, typed, target, own, &c.body, checks)?;
    Ok(Case {
        pattern,
        guard,
        body,
    })
}

/// The cases of the program that typed cases are, of a matched value of a sort.
#[cycle(exprs)]
fn cases_of(
    alloc: Global,
    typed: &Typed,
    target: &Target,
    own: &Frame,
    cases: &[TypedCase],
    sort: &GenericSort,
    checks: &mut Items<CheckAt>,
) -> Result<Cases, NoMemory>
    requires { AreTables typed.now.ctors target.now.numbers }
    ensures { IfOk result (λ cs. spec.TranslateCases typed.now (setting target.now) own.now sort.now cases.now cs
        checks.old checks.new) }
{
    let mut done = Items::new(alloc);
    for c in cases {
        done.push(case(alloc, typed, target, own, c, sort, checks)?)?;
    }
    Ok(done)
}
