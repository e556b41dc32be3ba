//! Patterns and their parts.

ghost use Rattle.std.specs.Prelude.{◌≡◌, [], OnOk, length, map, take};
ghost use Rattle.pp_rules.specs.Elab.{elab_pattern, elab_patterns};
ghost use Rattle.pp_tree.specs.Plain.{ctor_pattern};
ghost use Rattle.pp_tree.specs.Shown.{pattern_of, pattern_trees};
ghost use Rattle.pp_typing.specs.Views.{TellsBoth, env_of, scope_of, word_of};

use crate::checks::flaw;
use crate::pattern::{arguments, bind, leaf, node, put_all};
use crate::{Context, Local};
use pp_fault::{Halt, Rule};
use pp_list::{Items, at as item};
use pp_tree::{Pattern, PatternKind};
use pp_typed::{GenericSort, TypedPattern, TypedPatternKind, TypedPatterns};
use std::alloc::Global;

/// Types a pattern for values of a sort, and puts what it binds into scope. The values from `fresh` on are of the same
/// pattern.
#[cycle(patterns)]
pub(crate) fn pattern<'a>(
    alloc: Global,
    context: &Context<'_, 'a>,
    p: &Pattern<'a>,
    sort: &GenericSort,
    scope: &mut Items<Local<'a>>,
    fresh: usize,
) -> Result<TypedPattern, Halt>
    ensures told { TellsBoth result (scope_of scope.new)
        (elab_pattern (env_of context.now) (pattern_of p.now) sort.now fresh (scope_of scope.old)) }
    ensures front { OnOk result (take (length scope.old) scope.new ≡ scope.old) }
{
    let at = p.at;
    let name = p.name;
    match p.kind {
        PatternKind::Any => {
            bind(alloc, context, at, name, sort, scope, fresh)?;
            Ok(node(context, at, name, TypedPatternKind::Any))
        }
        PatternKind::Int(n) => {
            let kind = TypedPatternKind::Int(n);
            leaf(
                alloc,
                context,
                at,
                name,
                kind,
                &GenericSort::Int,
                sort,
                scope,
                fresh,
            )
        }
        PatternKind::Bool(b) => {
            let kind = TypedPatternKind::Bool(b);
            leaf(
                alloc,
                context,
                at,
                name,
                kind,
                &GenericSort::Bool,
                sort,
                scope,
                fresh,
            )
        }
        PatternKind::Ctor(ctor, parts) => {
            of_ctor(alloc, context, at, name, ctor, parts, sort, scope, fresh)
        }
    }
}

/// Types the pattern of a constructor.
#[cycle(patterns)]
fn of_ctor<'a>(
    alloc: Global,
    context: &Context<'_, 'a>,
    at: u32,
    name: Option<&'a str>,
    ctor: &'a str,
    parts: &[Pattern<'a>],
    sort: &GenericSort,
    scope: &mut Items<Local<'a>>,
    fresh: usize,
) -> Result<TypedPattern, Halt>
    ensures told { TellsBoth result (scope_of scope.new)
        (elab_pattern (env_of context.now) (ctor_pattern at (word_of name.entry) ctor.now (pattern_trees
        (map pattern_of parts.now)))
        sort.now fresh (scope_of scope.old)) }
    ensures front { OnOk result (take (length scope.old) scope.new ≡ scope.old) }
{
    let Some(i) = context.names.find_ctor(ctor) else {
        return flaw(alloc, context, Rule::Unknown, ctor, at);
    };
    let Some(found) = item(context.names.declared().ctors.as_slice(), i as usize) else {
        return flaw(alloc, context, Rule::Unknown, ctor, at);
    };
    let args = arguments(alloc, context, at, ctor, found.root, sort)?;
    if parts.len() != found.fields.len() {
        return flaw(alloc, context, Rule::Arity, ctor, at);
    }
    bind(alloc, context, at, name, sort, scope, fresh)?;
    let sorts = put_all(alloc, args.as_slice(), found.fields.as_slice())?;
    let parts = patterns(alloc, context, parts, sorts.as_slice(), scope, fresh)?;
    Ok(node(context, at, name, TypedPatternKind::Ctor(i, parts)))
}

/// Types a pattern for each of these sorts, from left to right.
#[cycle(patterns)]
fn patterns<'a>(
    alloc: Global,
    context: &Context<'_, 'a>,
    parts: &[Pattern<'a>],
    sorts: &[GenericSort],
    scope: &mut Items<Local<'a>>,
    fresh: usize,
) -> Result<TypedPatterns, Halt>
    requires { length parts.now ≡ length sorts.now }
    ensures told { TellsBoth result (scope_of scope.new)
        (elab_patterns (env_of context.now) [] (pattern_trees (map pattern_of parts.now)) sorts.now fresh
        (scope_of scope.old)) }
    ensures front { OnOk result (take (length scope.old) scope.new ≡ scope.old) }
{
    let mut done = Items::new(alloc);
    for i in 0..parts.len() {
        let part = pattern(alloc, context, &parts[i], &sorts[i], scope, fresh)?;
        done.push(part)?;
    }
    Ok(done)
}
