//! The parameters of a function, and the typed function that is made of its parts.

ghost use Rattle.std.specs.Prelude.{◌≡◌, IfOk, map};
ghost use Rattle.pp_rules.specs.Bodies.{param_scope, typed_def, typed_params};
ghost use Rattle.pp_tree.specs.Shown.{def_of, param_of};
ghost use Rattle.pp_typing.specs.Views.{scope_of};

use crate::Local;
use pp_generic::copy;
use pp_list::{Boxed, Items, at};
use pp_text::Name;
use pp_tree::{DefDecl, Param};
use pp_typed::{
    GenericSort, NoMemory, Signature, TypedDef, TypedExpr, TypedExprs, TypedParam, TypedParams,
    TypedPost,
};
use std::alloc::Global;

/// The parameters with their sorts. The only error is want of memory.
fn params(alloc: Global, params: &[Param], sorts: &[GenericSort]) -> Result<TypedParams, NoMemory>
    ensures { IfOk result (λ ps. ps ≡ typed_params (map param_of params.now) sorts.now) }
{
    let mut done = Items::new(alloc);
    for i in 0..params.len() {
        let Some(sort) = at(sorts, i) else {
            return Ok(done);
        };
        let name = Name::of(alloc, params[i].name)?;
        let of = copy(alloc, sort)?;
        done.push(TypedParam { name, of })?;
    }
    Ok(done)
}

/// The parameters as values in scope. The only error is want of memory.
pub(crate) fn locals<'a>(
    alloc: Global,
    params: &[Param<'a>],
    sorts: &[GenericSort],
) -> Result<Items<Local<'a>>, NoMemory>
    ensures { IfOk result (λ ls. scope_of ls ≡ param_scope (typed_params (map param_of params.now) sorts.now)) }
{
    let mut done = Items::new(alloc);
    for i in 0..params.len() {
        let Some(sort) = at(sorts, i) else {
            return Ok(done);
        };
        let of = copy(alloc, sort)?;
        done.push(Local {
            name: params[i].name,
            of,
        })?;
    }
    Ok(done)
}

/// The typed function that is made of typed parts. The only error is want of memory.
pub(crate) fn typed_def(
    alloc: Global,
    source: u32,
    def: &DefDecl,
    signature: &Signature,
    pre: TypedExprs,
    measure: TypedExprs,
    body: Boxed<TypedExpr>,
    post: Option<Boxed<TypedPost>>,
) -> Result<TypedDef, NoMemory>
    ensures { IfOk result (λ d. d ≡ typed_def source (def_of def.now) signature.now pre measure body post) }
{
    Ok(TypedDef {
        name: Name::of(alloc, def.name)?,
        source,
        at: def.at,
        type_params: signature.type_params,
        params: params(alloc, def.params, signature.params.as_slice())?,
        result: copy(alloc, &signature.result)?,
        pre,
        measure,
        body: body.into_inner(),
        post: post.map(Boxed::into_inner),
    })
}
