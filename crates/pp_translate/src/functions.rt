//! Functions at the arguments of an instance.

ghost use Rattle.std.specs.Prelude.{◌≡◌, ◌<◌, ◌≤◌, ◌^◌, ◌+◌, ◌++◌, ◌∷◌, [], List, Some, All, IfOk, length, map};
ghost use Rattle.pp_numbers.specs.Tables.{AreTables};
ghost use Rattle.pp_prog.specs.declared.check.CheckKind.TheVariants as check;
ghost use Rattle.pp_translate.specs.Target.{setting};
ghost use Rattle.pp_translation.specs.Defs as spec;
ghost use Rattle.pp_translation.specs.Functions as bare;
ghost use Rattle.pp_translation.specs.Numbered.{is_written};
ghost use Rattle.pp_translation.specs.declared.frame.CheckAt.{CheckAt};
ghost use Rattle.pp_instances.specs.declared.member.Instance.{Instance};
ghost use Rattle.pp_typed.specs.Stand.{Stands, TypedStands};

use crate::NoMemory;
use crate::conditions::as_one;
use crate::exprs::{expr, exprs};
use crate::target::Target;
use pp_generic::copies;
use pp_instances::Instance;
use pp_list::{Items, at};
use pp_numbers::{Numbers, sort_at};
use pp_prog::{
    Check, CheckId, CheckKind, Checks, Expr, Function, FunctionId, Functions, Param, Params, Place,
};
use pp_text::{Name, Text};
use pp_translation::{CheckAt, Frame};
use pp_typed::{GenericSort, Typed, TypedDef, TypedExpr, TypedParam, TypedPost};
use std::alloc::Global;

/// The place of an offset of a source, which is numbered from 1. It takes no memory.
pub fn place_at(texts: &[Text], source: u32, at: u32) -> Place
    requires { Stands texts.now (source, at) }
    ensures { result ≡ bare.place_at texts.now (source, at) }
{
    let (line, column) = texts[source as usize - 1].place(at);
    Place {
        source,
        line,
        column,
    }
}

fn param_at(
    alloc: Global,
    numbers: &Numbers,
    args: &[GenericSort],
    param: &TypedParam,
) -> Result<Param, NoMemory>
    requires { length numbers.now.roots < 2 ^ 31 }
    ensures { IfOk result (λ p. p ≡ bare.param_at numbers.now.roots args.now param.now) }
{
    Ok(Param {
        name: Name::of(alloc, param.name.as_str())?,
        sort: sort_at(alloc, numbers, args, &param.of)?,
    })
}

fn params_at(
    alloc: Global,
    numbers: &Numbers,
    args: &[GenericSort],
    params: &[TypedParam],
) -> Result<Params, NoMemory>
    requires { length numbers.now.roots < 2 ^ 31 }
    ensures { IfOk result (λ ps. ps ≡ map (bare.param_at numbers.now.roots args.now) params.now) }
{
    let mut done = Items::new(alloc);
    for param in params {
        done.push(param_at(alloc, numbers, args, param)?)?;
    }
    Ok(done)
}

/// Several conditions as one, in order; none is no condition.
fn conditions(
    alloc: Global,
    typed: &Typed,
    target: &Target,
    own: &Frame,
    es: &[TypedExpr],
    checks: &mut Items<CheckAt>,
) -> Result<Option<Expr>, NoMemory>
    requires { AreTables typed.now.ctors target.now.numbers }
    ensures { IfOk result (λ whole. spec.TranslateConditions typed.now (setting target.now) own.now es.now whole
        checks.old checks.new) }
{
    let parts = exprs(alloc, typed, target, own, es, checks)?;
    let whole = as_one(alloc, parts)?;
    Ok(whole)
}

/// Lists the check of a postcondition, and gives its number. There is no memory for 2^32 checks.
fn add_post(
    own: &Frame,
    source: u32,
    at: u32,
    checks: &mut Items<CheckAt>,
) -> Result<CheckId, NoMemory>
    ensures number { IfOk result (λ n. n.0 ≡ length checks.old) }
    ensures listed { IfOk result
        (λ _. checks.new ≡ checks.old
        ++ record { function = own.now.number; kind = check.Postcondition; source = source; at = at } ∷ []) }
{
    let number = checks.len();
    if number >= u32::MAX as usize {
        return Err(NoMemory);
    }
    checks.push(CheckAt {
        function: own.number,
        kind: CheckKind::Postcondition,
        source,
        at,
    })?;
    Ok(CheckId(number as u32))
}

fn post_of(
    alloc: Global,
    typed: &Typed,
    target: &Target,
    own: &Frame,
    source: u32,
    post: &Option<TypedPost>,
    checks: &mut Items<CheckAt>,
) -> Result<Option<(CheckId, Expr)>, NoMemory>
    requires { AreTables typed.now.ctors target.now.numbers }
    ensures { IfOk result (λ p. spec.TranslatesPost typed.now (setting target.now) own.now source post.now p checks.old
        checks.new) }
{
    match post {
        None => Ok(None),
        Some(post) => {
            let claim = expr(alloc, typed, target, own, &post.claim, checks)?;
            let check = add_post(own, source, post.at, checks)?;
            Ok(Some((check, claim)))
        }
    }
}

/// The function of the program that a function is at the arguments of an instance, with the numbers of its checks,
/// which are listed behind those before. The only error is want of memory; there is none for 2^32 checks, nor for a
/// match of 65,536 cases.
pub fn function_of(
    alloc: Global,
    typed: &Typed,
    texts: &[Text],
    target: &Target,
    own: &Frame,
    i: &Instance,
    d: &TypedDef,
    checks: &mut Items<CheckAt>,
) -> Result<Function, NoMemory>
    requires tables { AreTables typed.now.ctors target.now.numbers }
    requires stands { Stands texts.now (d.now.source, d.now.at) }
    ensures { IfOk result (λ f. spec.TranslatesDef typed.now (setting target.now) own.now texts.now i.now d.now f
        checks.old checks.new) }
{
    let args = own.args.as_slice();
    let name = Name::of(alloc, i.name.as_str())?;
    let params = params_at(alloc, &target.numbers, args, d.params.as_slice())?;
    let result = sort_at(alloc, &target.numbers, args, &d.result)?;
    let pre = conditions(alloc, typed, target, own, d.pre.as_slice(), checks)?;
    let measure = exprs(alloc, typed, target, own, d.measure.as_slice(), checks)?;
    let body = expr(alloc, typed, target, own, &d.body, checks)?;
    let post = post_of(alloc, typed, target, own, d.source, &d.post, checks)?;
    Ok(Function {
        name,
        place: place_at(texts, d.source, d.at),
        params,
        result,
        pre,
        measure,
        body,
        post,
    })
}

/// The frame of function number n.
fn frame(alloc: Global, n: u32, i: &Instance, d: &TypedDef) -> Result<Frame, NoMemory>
    ensures number { IfOk result (λ own. own.number ≡ n) }
    ensures args { IfOk result (λ own. own.args ≡ i.now.args) }
    ensures measured { IfOk result (λ own. own.measured ≡ is_written d.now.measure) }
{
    Ok(Frame {
        number: n,
        args: copies(alloc, i.args.as_slice())?,
        measured: d.measure.len() > 0,
    })
}

/// Adds the function of an instance, if it is one of a function.
fn add_function(
    alloc: Global,
    typed: &Typed,
    texts: &[Text],
    target: &Target,
    i: &Instance,
    functions: &mut Functions,
    checks: &mut Items<CheckAt>,
) -> Result<(), NoMemory>
    requires tables { AreTables typed.now.ctors target.now.numbers }
    requires stands { TypedStands texts.now typed.now }
    requires few { length functions.old < 2 ^ 31 }
    ensures made { IfOk result
        (λ _. (is : List Instance) (start : List CheckAt)
        → spec.TranslatesDefs typed.now (setting target.now) texts.now is functions.old start checks.old
        → spec.TranslatesDefs typed.now (setting target.now) texts.now (is ++ i.now ∷ []) functions.new start
        checks.new) }
    ensures few { IfOk result (λ _. length functions.new ≤ length functions.old + 1) }
{
    match at(typed.defs.as_slice(), i.number as usize) {
        None => Ok(()),
        Some(d) => {
            let own = frame(alloc, functions.len() as u32, i, d)?;
            let function = function_of(alloc, typed, texts, target, &own, i, d, checks)?;
            functions.push(function)?;
            Ok(())
        }
    }
}

/// The functions of the program, in order; their checks are listed behind those before. The only error is want of
/// memory, as of `function_of`.
pub fn functions_of(
    alloc: Global,
    typed: &Typed,
    texts: &[Text],
    target: &Target,
    instances: &[Instance],
    checks: &mut Items<CheckAt>,
) -> Result<Functions, NoMemory>
    requires tables { AreTables typed.now.ctors target.now.numbers }
    requires stands { TypedStands texts.now typed.now }
    requires few { length instances.now < 2 ^ 31 }
    ensures { IfOk result (λ fs. spec.TranslatesDefs typed.now (setting target.now) texts.now instances.now fs
        checks.old checks.new) }
{
    let mut functions = Items::new(alloc);
    for i in 0..instances.len() {
        add_function(
            alloc,
            typed,
            texts,
            target,
            &instances[i],
            &mut functions,
            checks,
        )?;
    }
    Ok(functions)
}

/// The checks of a program, each with its number and its place. The only error is want of memory.
pub fn checks_of(alloc: Global, texts: &[Text], checks: &[CheckAt]) -> Result<Checks, NoMemory>
    requires few { length checks.now < 2 ^ 32 }
    requires stand { All (spec.StandsAt texts.now) checks.now }
    ensures { IfOk result (λ cs. cs ≡ spec.checks_from texts.now 0 checks.now) }
{
    let mut done = Items::new(alloc);
    for i in 0..checks.len() {
        let check = checks[i];
        done.push(Check {
            id: CheckId(i as u32),
            function: FunctionId(check.function),
            kind: check.kind,
            place: place_at(texts, check.source, check.at),
        })?;
    }
    Ok(done)
}
