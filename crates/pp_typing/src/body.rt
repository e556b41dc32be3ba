//! The contracts and the body of a function.

ghost use Rattle.std.specs.Prelude.{◌≡◌, ◌<◌, ◌^◌, [], OnOk, length, map, option_map};
ghost use Rattle.pp_fault.specs.Part.{Tells};
ghost use Rattle.pp_generic.specs.Expected.{exact};
ghost use Rattle.pp_rules.specs.Bodies.{elab_conditions, elab_def, elab_measure, elab_post, post_written};
ghost use Rattle.pp_tree.specs.Shown.{def_of, post_of, tree_of, type_of};
ghost use Rattle.pp_typing.specs.Views.{body_typing, def_typing, env_of, part_typing, scope_of};

use crate::checks::{flaw, written};
use crate::expr::{condition, expr, part};
use crate::params::{locals, typed_def};
use crate::scope::depth;
use crate::{Context, Local};
use pp_fault::{Halt, Rule};
use pp_generic::{are_same, copy, exact};
use pp_list::{Boxed, Items};
use pp_names::{Names, is_reserved};
use pp_tree::{DefDecl, Expr, Post, TypeText};
use pp_typed::{GenericSort, Signature, TypedDef, TypedExpr, TypedExprs, TypedPost};
use std::alloc::Global;

/// Types the conditions of a function.
fn conditions<'a>(
    alloc: Global,
    context: &Context<'_, 'a>,
    es: &[Expr<'a>],
    scope: &mut Items<Local<'a>>,
) -> Result<TypedExprs, Halt>
    ensures told { Tells result (elab_conditions (env_of context.now) [] (map tree_of es.now) (scope_of scope.old)) }
    ensures kept { OnOk result (scope.new ≡ scope.old) }
{
    let mut done = Items::new(alloc);
    for i in 0..es.len() {
        let test = condition(alloc, context, &es[i], scope)?;
        done.push(test.into_inner())?;
    }
    Ok(done)
}

/// Types the components of a measure.
fn components<'a>(
    alloc: Global,
    context: &Context<'_, 'a>,
    es: &[Expr<'a>],
    scope: &mut Items<Local<'a>>,
) -> Result<TypedExprs, Halt>
    ensures told { Tells result (elab_measure (env_of context.now) [] (map tree_of es.now) (scope_of scope.old)) }
    ensures kept { OnOk result (scope.new ≡ scope.old) }
{
    let mut done = Items::new(alloc);
    for i in 0..es.len() {
        let component = part(alloc, context, &es[i], scope)?;
        done.push(component.into_inner())?;
    }
    Ok(done)
}

/// Types the body of a function, which has the sort of its result.
fn body<'a>(
    alloc: Global,
    context: &Context<'_, 'a>,
    e: &Expr<'a>,
    scope: &mut Items<Local<'a>>,
    sort: &GenericSort,
) -> Result<Boxed<TypedExpr>, Halt>
    ensures told { Tells result (part_typing context.now scope.old (exact sort.now) (tree_of e.now)) }
    ensures kept { OnOk result (scope.new ≡ scope.old) }
{
    let fresh = depth(scope.as_slice());
    let expected = exact(alloc, sort)?;
    expr(alloc, context, e, scope, fresh, &expected)
}

/// Tests that the type that is written for the result's name, where one is, is the result's sort.
fn result_written(
    alloc: Global,
    context: &Context,
    text: &Option<TypeText>,
    sort: &GenericSort,
) -> Result<(), Halt>
    ensures { Tells result (post_written (env_of context.now) (option_map type_of text.now) sort.now) }
{
    let Some(text) = text else {
        return Ok(());
    };
    let named = written(alloc, context, text)?;
    if are_same(&named, sort) {
        Ok(())
    } else {
        flaw(alloc, context, Rule::Mismatch, text.name, text.at)
    }
}

/// Types a postcondition, in which the result is in scope after the parameters.
fn post<'a>(
    alloc: Global,
    context: &Context<'_, 'a>,
    post: &Option<Post<'a>>,
    scope: &mut Items<Local<'a>>,
    sort: &GenericSort,
) -> Result<Option<Boxed<TypedPost>>, Halt>
    ensures { Tells result (elab_post (env_of context.now) (option_map post_of post.now)
        (scope_of scope.old) sort.now) }
{
    let Some(post) = post else {
        return Ok(None);
    };
    if is_reserved(post.name) {
        return flaw(alloc, context, Rule::Duplicate, post.name, post.at);
    }
    result_written(alloc, context, &post.of, sort)?;
    let of = copy(alloc, sort)?;
    scope.push(Local {
        name: post.name,
        of,
    })?;
    let claim = condition(alloc, context, &post.claim, scope)?;
    let claim = claim.into_inner();
    Ok(Some(Boxed::new(alloc, TypedPost { at: post.at, claim })?))
}

/// Types the body and the postcondition of a function among its parameters.
fn with_contracts<'a>(
    alloc: Global,
    context: &Context<'_, 'a>,
    def: &DefDecl<'a>,
    signature: &Signature,
    scope: &mut Items<Local<'a>>,
    pre: TypedExprs,
    measure: TypedExprs,
) -> Result<TypedDef, Halt>
    ensures { Tells result
        (body_typing (env_of context.now) (def_of def.now) signature.now (scope_of scope.old) pre measure) }
{
    let body = body(alloc, context, &def.body, scope, &signature.result)?;
    let post = post(alloc, context, &def.post, scope, &signature.result)?;
    Ok(typed_def(
        alloc,
        context.source,
        def,
        signature,
        pre,
        measure,
        body,
        post,
    )?)
}

/// Types the contracts and the body of a function among its parameters.
fn among_params<'a>(
    alloc: Global,
    context: &Context<'_, 'a>,
    def: &DefDecl<'a>,
    signature: &Signature,
    scope: &mut Items<Local<'a>>,
) -> Result<TypedDef, Halt>
    ensures { Tells result (def_typing (env_of context.now) (def_of def.now) signature.now (scope_of scope.old)) }
{
    let pre = conditions(alloc, context, def.pre, scope)?;
    let measure = components(alloc, context, def.measure, scope)?;
    with_contracts(alloc, context, def, signature, scope, pre, measure)
}

/// Types a function of a source, which is numbered from 1, whose signature is declared. It refuses a function that has
/// no typing with a fault in it; `Memory` is want of memory.
pub fn definition<'a>(
    alloc: Global,
    names: &Names,
    source: u32,
    def: &DefDecl<'a>,
    signature: &Signature,
) -> Result<TypedDef, Halt>
    requires { length def.now.type_params.now < 2 ^ 32 }
    ensures { Tells result (elab_def names.now source (def_of def.now) signature.now) }
{
    let context = Context {
        names,
        type_params: def.type_params,
        function: def.name,
        source,
    };
    let mut scope = locals(alloc, def.params, signature.params.as_slice())?;
    among_params(alloc, &context, def, signature, &mut scope)
}
