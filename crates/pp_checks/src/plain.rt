//! Plain descents: `specs/Plain` says what they are, and `specs/Marks` how they are found here, which may change.

ghost use Rattle.std.specs.Prelude.{◌≡◌, ◌↔◌, ◌⊎◌, ◌<◌, ◌++◌, ◌∷◌, [], ℕ, Contains, IfOk, OnOk, IsTrue, false, length};
ghost use Rattle.std.specs.Prelude.{map, replicate, slice_get};
ghost use Rattle.pp_graph.specs.Rows.{marked};
ghost use Rattle.pp_checks.specs.Marks as spec;
ghost use Rattle.pp_checks.specs.Plain.{IsPlain};
ghost use Rattle.pp_checks.specs.Marks.{descents, descents_in_case, marks_of, plain_descents, pre_descents};
ghost use Rattle.pp_checks.specs.Marks.{seen};

use crate::NoMemory;
use crate::ranks::is_marked;
use crate::scope::truncate;
use pp_list::{Items, at};
use pp_prog::{Case, CheckId, Expr, Function, FunctionId, Param, Pattern, Sort};
use std::alloc::Global;

/// What a search for plain descents goes by: the functions of the program, and the parameter that has to go down.
#[derive(Clone, Copy)]
struct Descent<'a> {
    functions: &'a [Function],
    param: u32,
}

/// The variable that the expression is, if it is one.
fn variable_of(e: &Expr) -> Option<u32>
    ensures { result ≡ spec.variable_of e.now }
{
    match e {
        Expr::Var(i) => Some(*i),
        _ => None,
    }
}

/// The parameter that is the first component of the function's measure, if one is.
fn first_param(f: &Function) -> Option<u32>
    ensures { result ≡ spec.first_param f.now }
{
    match f.measure.as_slice().first() {
        None => None,
        Some(e) => below(variable_of(e), f.params.len()),
    }
}

fn below(i: Option<u32>, n: usize) -> Option<u32>
    ensures { result ≡ spec.if_below n i }
{
    match i {
        None => None,
        Some(i) => if (i as usize) < n { Some(i) } else { None },
    }
}

/// The parameter that is the first component of the measure of function g, if one is.
fn first_param_of(functions: &[Function], g: FunctionId) -> Option<u32>
    ensures { result ≡ spec.first_param_of (slice_get functions.now g.0) }
{
    match at(functions, g.0 as usize) {
        None => None,
        Some(f) => first_param(f),
    }
}

/// Adds a mark for each variable that the pattern binds: that of its top, or that of what is below a constructor.
fn add_marks(
    pattern: &Pattern,
    top: bool,
    below: bool,
    marks: &mut Items<bool>,
) -> Result<(), NoMemory>
    ensures { OnOk result (marks.new ≡ marks.old ++ marks_of pattern.now top below) }
{
    match pattern {
        Pattern::Any => Ok(()),
        Pattern::Int(_) => Ok(()),
        Pattern::Bool(_) => Ok(()),
        Pattern::Bind(inner) => {
            marks.push(top)?;
            add_marks(inner.get(), top, below, marks)
        }
        Pattern::Ctor(_, patterns) => {
            let patterns = patterns.as_slice();
            for p in patterns {
                add_marks(p, below, below, marks)?;
            }
            Ok(())
        }
    }
}

/// Whether the variable is inside the parameter.
fn is_inside(marks: &[bool], variable: Option<u32>) -> bool
    ensures { result ≡ spec.is_inside marks.now variable }
{
    match variable {
        None => false,
        Some(i) => is_marked(marks, i as usize),
    }
}

/// Whether the variable is the parameter, or inside it.
fn is_live(p: u32, marks: &[bool], variable: Option<u32>) -> bool
    ensures { result ≡ spec.is_live p marks.now variable }
{
    match variable {
        None => false,
        Some(i) => i == p || is_marked(marks, i as usize),
    }
}

/// Whether the argument for this parameter is a variable inside the parameter that has to go down.
fn goes_down(d: Descent<'_>, param: Option<u32>, args: &[Expr], marks: &[bool]) -> bool
    ensures { result ≡ spec.goes_down param (map (seen d.entry.functions.now d.entry.param) args.now) marks.now }
{
    match param {
        None => false,
        Some(q) => match at(args, q as usize) {
            None => false,
            Some(arg) => is_inside(marks, variable_of(arg)),
        },
    }
}

/// Adds the plain descents in an expression, by the marks of the variables in scope, which are the same afterwards.
#[cycle(descents)]
fn add_descents(
    d: Descent<'_>,
    e: &Expr,
    marks: &mut Items<bool>,
    found: &mut Items<u32>,
) -> Result<(), NoMemory>
    ensures found { OnOk result (found.new ≡ found.old
        ++ descents d.entry.functions.now d.entry.param e.now marks.old) }
    ensures kept { OnOk result (marks.new ≡ marks.old) }
{
    match e {
        Expr::Int(_) => Ok(()),
        Expr::Bool(_) => Ok(()),
        Expr::Var(_) => Ok(()),
        Expr::Unary(_, a) => add_descents(d, a.get(), marks, found),
        Expr::Binary(_, a, b, _) => {
            add_descents(d, a.get(), marks, found)?;
            add_descents(d, b.get(), marks, found)
        }
        Expr::Construct(_, args) => add_all(d, args.as_slice(), marks, found),
        Expr::Field(e, _) => add_descents(d, e.get(), marks, found),
        Expr::If(c, a, b) => {
            add_descents(d, c.get(), marks, found)?;
            add_descents(d, a.get(), marks, found)?;
            add_descents(d, b.get(), marks, found)
        }
        Expr::Match(e, cases, _) => {
            add_descents(d, e.get(), marks, found)?;
            let live = is_live(d.param, marks.as_slice(), variable_of(e.get()));
            add_cases(d, cases.as_slice(), live, marks, found)
        }
        Expr::Val(bound, rest) => {
            add_descents(d, bound.get(), marks, found)?;
            add_under(d, rest.get(), marks, found)
        }
        Expr::Assert(_, c, rest) => {
            add_descents(d, c.get(), marks, found)?;
            add_descents(d, rest.get(), marks, found)
        }
        Expr::Call {
            callee,
            args,
            measure,
            ..
        } => {
            add_all(d, args.as_slice(), marks, found)?;
            let param = first_param_of(d.functions, *callee);
            if goes_down(d, param, args.as_slice(), marks.as_slice()) {
                add_check(*measure, found)?;
            }
            Ok(())
        }
    }
}

/// Adds the check, if there is one.
fn add_check(check: Option<CheckId>, found: &mut Items<u32>) -> Result<(), NoMemory>
    ensures { OnOk result (found.new ≡ found.old ++ spec.as_check check) }
{
    match check {
        None => Ok(()),
        Some(check) => found.push(check.0),
    }
}

/// Adds the plain descents in an expression below one more variable, which isn't inside the parameter.
#[cycle(descents)]
fn add_under(
    d: Descent<'_>,
    e: &Expr,
    marks: &mut Items<bool>,
    found: &mut Items<u32>,
) -> Result<(), NoMemory>
    ensures found { OnOk result (found.new ≡ found.old
        ++ descents d.entry.functions.now d.entry.param e.now (marks.old ++ false ∷ [])) }
    ensures kept { OnOk result (marks.new ≡ marks.old) }
{
    marks.push(false)?;
    add_descents(d, e, marks, found)?;
    let _ = marks.pop();
    Ok(())
}

/// Adds the plain descents in the expressions.
#[cycle(descents)]
fn add_all(
    d: Descent<'_>,
    es: &[Expr],
    marks: &mut Items<bool>,
    found: &mut Items<u32>,
) -> Result<(), NoMemory>
    ensures found { OnOk result (found.new ≡ found.old
        ++ spec.in_all (map (seen d.entry.functions.now d.entry.param) es.now) marks.old) }
    ensures kept { OnOk result (marks.new ≡ marks.old) }
{
    for e in es {
        add_descents(d, e, marks, found)?;
    }
    Ok(())
}

/// Adds the plain descents in the cases of a match.
#[cycle(descents)]
fn add_cases(
    d: Descent<'_>,
    cases: &[Case],
    live: bool,
    marks: &mut Items<bool>,
    found: &mut Items<u32>,
) -> Result<(), NoMemory>
    ensures found { OnOk result (found.new ≡ found.old
        ++ spec.in_cases (map (descents_in_case d.entry.functions.now d.entry.param) cases.now) live marks.old) }
    ensures kept { OnOk result (marks.new ≡ marks.old) }
{
    for c in cases {
        add_case(d, c, live, marks, found)?;
    }
    Ok(())
}

/// Adds the plain descents in a case.
#[cycle(descents)]
fn add_case(
    d: Descent<'_>,
    c: &Case,
    live: bool,
    marks: &mut Items<bool>,
    found: &mut Items<u32>,
) -> Result<(), NoMemory>
    ensures found { OnOk result (found.new ≡ found.old
        ++ descents_in_case d.entry.functions.now d.entry.param c.now live marks.old) }
    ensures kept { OnOk result (marks.new ≡ marks.old) }
{
    let depth = marks.len();
    add_marks(&c.pattern, false, live, marks)?;
    add_guard(d, &c.guard, marks, found)?;
    add_descents(d, &c.body, marks, found)?;
    truncate(marks, depth);
    Ok(())
}

/// Adds the plain descents in the expression, if one is written.
#[cycle(descents)]
fn add_guard(
    d: Descent<'_>,
    e: &Option<Expr>,
    marks: &mut Items<bool>,
    found: &mut Items<u32>,
) -> Result<(), NoMemory>
    ensures found { OnOk result (found.new ≡ found.old
        ++ pre_descents d.entry.functions.now d.entry.param e.now marks.old) }
    ensures kept { OnOk result (marks.new ≡ marks.old) }
{
    match e {
        None => Ok(()),
        Some(e) => add_descents(d, e, marks, found),
    }
}

/// The plain descents of the function.
fn descents_of(alloc: Global, functions: &[Function], f: &Function) -> Result<Items<u32>, NoMemory>
    ensures { IfOk result (λ found. found ≡ plain_descents functions.now f.now) }
{
    let mut found = Items::new(alloc);
    if let Some(param) = tree_param(f) {
        let d = Descent { functions, param };
        let mut marks = unmarked(alloc, f.params.len())?;
        add_guard(d, &f.pre, &mut marks, &mut found)?;
        add_all(d, f.measure.as_slice(), &mut marks, &mut found)?;
        add_descents(d, &f.body, &mut marks, &mut found)?;
        match &f.post {
            None => {}
            Some(post) => add_under(d, &post.1, &mut marks, &mut found)?,
        }
    }
    Ok(found)
}

fn unmarked(alloc: Global, n: usize) -> Result<Items<bool>, NoMemory>
    ensures { IfOk result (λ marks. marks ≡ replicate n false) }
{
    let mut marks = Items::new(alloc);
    for i in 0..n {
        marks.push(false)?;
    }
    Ok(marks)
}

/// The parameter that is the first component of the measure, where it is of a datatype.
fn tree_param(f: &Function) -> Option<u32>
    ensures { result ≡ spec.tree_param f.now }
{
    match first_param(f) {
        None => None,
        Some(p) => if is_tree(f.params.as_slice(), p) {
            Some(p)
        } else {
            None
        },
    }
}

fn is_tree(params: &[Param], p: u32) -> bool
    ensures { result ≡ spec.is_tree_param (slice_get params.now p) }
{
    match at(params, p as usize) {
        None => false,
        Some(p) => match p.sort {
            Sort::Int | Sort::Bool => false,
            Sort::Tree(_) => true,
        },
    }
}

/// A mark for each check, whether it is a plain descent.
pub(crate) fn plains_of(
    alloc: Global,
    functions: &[Function],
    checks: usize,
) -> Result<Items<bool>, NoMemory>
    ensures { IfOk result (λ plains. (c : ℕ) → c < checks → IsTrue (marked plains c) ↔ IsPlain functions.now c) }
{
    let mut plains = unmarked(alloc, checks)?;
    for f in functions {
        let found = descents_of(alloc, functions, f)?;
        mark_all(&mut plains, found.as_slice());
    }
    Ok(plains)
}

/// Marks these checks, as far as they have a place.
fn mark_all(plains: &mut Items<bool>, checks: &[u32])
    ensures size { length plains.new ≡ length plains.old }
    ensures marks { (c : ℕ) → c < length plains.old
        → IsTrue (marked plains.new c) ↔ (IsTrue (marked plains.old c) ⊎ Contains checks.now c) }
{
    for c in checks {
        mark(plains, *c as usize);
    }
}

fn mark(plains: &mut Items<bool>, c: usize)
    ensures size { length plains.new ≡ length plains.old }
    ensures marks { (k : ℕ) → k < length plains.old
        → IsTrue (marked plains.new k) ↔ (IsTrue (marked plains.old k) ⊎ (c ≡ k)) }
{
    if c < plains.len() {
        plains.set(c, true);
    }
}
