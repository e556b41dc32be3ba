//! Patterns.

ghost use Rattle.std.specs.Prelude.{◌≡◌, IfOk, OnOk, length, map, take, option_map};
ghost use Rattle.pp_fault.specs.Part.{Tells};
ghost use Rattle.pp_typed.specs.Put.{put};
ghost use Rattle.pp_rules.specs.Elab.{arguments, bind, leaf, pattern, pattern_name};
ghost use Rattle.pp_typed.specs.declared.sort.GenericSort.TheViews.{out-GenericSort};
ghost use Rattle.pp_typing.specs.Views.{Leaves, TellsBoth, env_of, scope_of, word_of};

use crate::checks::flaw;
use crate::scope::clashes;
use crate::{Context, Local};
use pp_fault::{Halt, Rule};
use pp_generic::{are_same, copies, copy, put};
use pp_list::Items;
use pp_typed::{GenericSort, GenericSorts, NoMemory, TypedPattern, TypedPatternKind};
use std::alloc::Global;

/// A typed pattern, which binds its value where it has a name.
pub(crate) fn node(
    context: &Context,
    at: u32,
    name: Option<&str>,
    kind: TypedPatternKind,
) -> TypedPattern
    ensures { result ≡ pattern (env_of context.now) at (word_of name.entry) kind }
{
    TypedPattern {
        source: context.source,
        at,
        binds: name.is_some(),
        kind,
    }
}

/// Puts the value that a pattern binds into scope. The values from `fresh` on are of the same pattern.
pub(crate) fn bind<'a>(
    alloc: Global,
    context: &Context,
    at: u32,
    name: Option<&'a str>,
    sort: &GenericSort,
    scope: &mut Items<Local<'a>>,
    fresh: usize,
) -> Result<(), Halt>
    ensures told { Leaves result (scope_of scope.new) (bind (env_of context.now) at
        (word_of name.entry) sort.now fresh (scope_of scope.old)) }
    ensures front { OnOk result (take (length scope.old) scope.new ≡ scope.old) }
{
    match name {
        None => Ok(()),
        Some(name) => {
            if clashes(scope.as_slice(), fresh, name) {
                return flaw(alloc, context, Rule::Duplicate, name, at);
            }
            let of = copy(alloc, sort)?;
            scope.push(Local { name, of })?;
            Ok(())
        }
    }
}

/// The name at a pattern of no constructor.
fn pattern_name<'n>(context: &Context<'_, 'n>, name: Option<&'n str>) -> &'n str
    ensures { result.now ≡ pattern_name (env_of context.now) (word_of name.entry) }
{
    match name {
        Some(name) => name,
        None => context.function,
    }
}

/// A pattern without parts, of values of `sort`, where that is `of`.
pub(crate) fn leaf<'a>(
    alloc: Global,
    context: &Context<'_, 'a>,
    at: u32,
    name: Option<&'a str>,
    kind: TypedPatternKind,
    of: &GenericSort,
    sort: &GenericSort,
    scope: &mut Items<Local<'a>>,
    fresh: usize,
) -> Result<TypedPattern, Halt>
    ensures told { TellsBoth result (scope_of scope.new) (leaf (env_of context.now) at
        (word_of name.entry) kind of.now sort.now fresh (scope_of scope.old)) }
    ensures front { OnOk result (take (length scope.old) scope.new ≡ scope.old) }
{
    if !are_same(of, sort) {
        return flaw(
            alloc,
            context,
            Rule::Mismatch,
            pattern_name(context, name),
            at,
        );
    }
    bind(alloc, context, at, name, sort, scope, fresh)?;
    Ok(node(context, at, name, kind))
}

/// The type arguments at which a constructor of this root stands, where values of the sort are of that root.
pub(crate) fn arguments(
    alloc: Global,
    context: &Context,
    at: u32,
    name: &str,
    root: u32,
    sort: &GenericSort,
) -> Result<GenericSorts, Halt>
    ensures { Tells result (arguments (env_of context.now) at name.now root (out-GenericSort sort.now)) }
{
    match sort {
        GenericSort::Root(r, args) if *r == root => Ok(copies(alloc, args.as_slice())?),
        _ => flaw(alloc, context, Rule::Mismatch, name, at),
    }
}

/// The sorts with these in place of their parameters. The only error is want of memory.
pub(crate) fn put_all(
    alloc: Global,
    args: &[GenericSort],
    sorts: &[GenericSort],
) -> Result<GenericSorts, NoMemory>
    ensures { IfOk result (λ ss. ss ≡ map (put args.now) sorts.now) }
{
    let mut done = Items::new(alloc);
    for sort in sorts {
        done.push(put(alloc, args, sort)?)?;
    }
    Ok(done)
}
