//! What is tested of typed parts, and the refusals.

ghost use Rattle.std.specs.Prelude.{◌≡◌, [], IfOk, map, option_map};
ghost use Rattle.pp_fault.specs.Part.{Tells};
ghost use Rattle.pp_sorts.specs.Words.{words_of};
ghost use Rattle.pp_tree.specs.Shown.{tree_of, type_of, type_trees};
ghost use Rattle.pp_rules.specs.Elab.{agreed, flaw, name_at, of_sort, typed, val_expected};
ghost use Rattle.pp_rules.specs.Written.{written, written_from};
ghost use Rattle.pp_typing.specs.Views.{env_of};

use crate::Context;
use pp_fault::{Halt, Rule, broken};
use pp_generic::{Expected, are_same, exact, fits};
use pp_list::Boxed;
use pp_sorts::{TypeScope, sort_of, sorts_of};
use pp_tree::{Expr, ExprKind, TypeText};
use pp_typed::{GenericSort, GenericSorts, NoMemory, TypedExpr, TypedKind};
use std::alloc::Global;

/// The types that may be written where an expression stands.
pub(crate) fn types_of<'s>(context: &'s Context) -> TypeScope<'s>
    ensures roots { result.roots.now ≡ context.now.names.now.roots }
    ensures params { words_of result.params.now ≡ words_of context.now.type_params.now }
    ensures source { result.source ≡ context.now.source }
{
    TypeScope {
        names: context.names.root_table(),
        roots: context.names.declared().roots.as_slice(),
        params: context.type_params,
        source: context.source,
    }
}

/// The refusal for a broken rule.
pub(crate) fn flaw<T>(
    alloc: Global,
    context: &Context,
    rule: Rule,
    name: &str,
    at: u32,
) -> Result<T, Halt>
    ensures { Tells result (flaw (env_of context.now) rule name.now at) }
{
    broken(alloc, rule, name, context.source, at)
}

/// An expression of this sort. The only error is want of memory.
pub(crate) fn typed(
    alloc: Global,
    context: &Context,
    at: u32,
    of: GenericSort,
    kind: TypedKind,
) -> Result<Boxed<TypedExpr>, NoMemory>
    ensures { IfOk result (λ e. e ≡ typed (env_of context.now) at of kind) }
{
    let source = context.source;
    Boxed::new(
        alloc,
        TypedExpr {
            source,
            at,
            of,
            kind,
        },
    )
}

/// The expression, where its sort is as expected; else a mismatch there.
pub(crate) fn agreed(
    alloc: Global,
    context: &Context,
    expected: &Expected,
    name: &str,
    e: Boxed<TypedExpr>,
) -> Result<Boxed<TypedExpr>, Halt>
    ensures { Tells result (agreed (env_of context.now) expected.now name.now e) }
{
    if fits(expected, &e.get().of) {
        Ok(e)
    } else {
        flaw(alloc, context, Rule::Mismatch, name, e.get().at)
    }
}

/// The expression, where its sort is this one; else the rule is broken there.
pub(crate) fn of_sort(
    alloc: Global,
    context: &Context,
    rule: Rule,
    sort: &GenericSort,
    name: &str,
    e: Boxed<TypedExpr>,
) -> Result<Boxed<TypedExpr>, Halt>
    ensures { Tells result (of_sort (env_of context.now) rule sort.now name.now e) }
{
    if are_same(sort, &e.get().of) {
        Ok(e)
    } else {
        flaw(alloc, context, rule, name, e.get().at)
    }
}

/// The name that is written at an expression; where none is, that of the function around it.
pub(crate) fn name_at<'n>(context: &Context<'_, 'n>, e: &Expr<'n>) -> &'n str
    ensures { result.now ≡ name_at (env_of context.now) (tree_of e.now) }
{
    match e.kind {
        ExprKind::Name(w) => w,
        ExprKind::Apply(w, _, _) => w,
        ExprKind::Field(_, w) => w,
        ExprKind::Val(w, _, _, _) => w,
        _ => context.function,
    }
}

/// The sort of a written type.
pub(crate) fn written(
    alloc: Global,
    context: &Context,
    text: &TypeText,
) -> Result<GenericSort, Halt>
    ensures { Tells result (written (env_of context.now) (type_of text.now)) }
{
    let scope = types_of(context);
    sort_of(alloc, &scope, text)
}

/// The sorts of written types.
pub(crate) fn all_written(
    alloc: Global,
    context: &Context,
    texts: &[TypeText],
) -> Result<GenericSorts, Halt>
    ensures { Tells result (written_from (env_of context.now) [] (type_trees (map type_of texts.now))) }
{
    let scope = types_of(context);
    sorts_of(alloc, &scope, texts)
}

/// What is expected of a `val`'s value: its written type, or nothing.
pub(crate) fn val_expected(
    alloc: Global,
    context: &Context,
    text: &Option<TypeText>,
) -> Result<Expected, Halt>
    ensures { Tells result (val_expected (env_of context.now) (option_map type_of text.now)) }
{
    match text {
        None => Ok(Expected::Open),
        Some(text) => {
            let sort = written(alloc, context, text)?;
            Ok(exact(alloc, &sort)?)
        }
    }
}
