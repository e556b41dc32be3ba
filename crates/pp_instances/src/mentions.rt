//! What declarations mention, over their own type parameters.

ghost use Rattle.std.specs.Prelude.{◌≡◌, ◌++◌, ◌∷◌, [], IfOk, map};
ghost use Rattle.pp_list.specs.Joined.{joined};
ghost use Rattle.pp_instances.specs.Uses.{types_in, types_of, mentions, case_mentions, guard_mentions, kind_mentions};
ghost use Rattle.pp_instances.specs.Uses.{param_types, signature_mentions, text_mentions, def_mentions, decl_mentions};
ghost use Rattle.pp_instances.specs.Uses.{function_at, ctor_mentions, post_mentions};

use crate::NoMemory;
use crate::member::{Decl, Member};
use pp_generic::copies;
use pp_list::{Items, at};
use pp_typed::{
    GenericSort, Typed, TypedCase, TypedCtor, TypedDef, TypedExpr, TypedKind, TypedParam, TypedPost,
};
use std::alloc::Global;

/// Adds a declaration at type arguments.
fn add_member(
    alloc: Global,
    of: Decl,
    args: &[GenericSort],
    found: &mut Items<Member>,
) -> Result<(), NoMemory>
    ensures { IfOk result (λ _. found.new ≡ found.old ++ record { of = of; args = args.now } ∷ []) }
{
    let args = copies(alloc, args)?;
    found.push(Member { of, args })?;
    Ok(())
}

/// Adds the types that the sort is made of.
#[cycle(types)]
fn add_types(alloc: Global, sort: &GenericSort, found: &mut Items<Member>) -> Result<(), NoMemory>
    ensures { IfOk result (λ _. found.new ≡ found.old ++ types_in sort.now) }
{
    match sort {
        GenericSort::Int => Ok(()),
        GenericSort::Bool => Ok(()),
        GenericSort::Param(_) => Ok(()),
        GenericSort::Root(r, parts) => {
            let parts = parts.as_slice();
            add_member(alloc, Decl::Root(*r), parts, found)?;
            add_all_types(alloc, parts, found)?;
            Ok(())
        }
    }
}

/// Adds the types that the sorts are made of.
#[cycle(types)]
fn add_all_types(
    alloc: Global,
    sorts: &[GenericSort],
    found: &mut Items<Member>,
) -> Result<(), NoMemory>
    ensures { IfOk result (λ _. found.new ≡ found.old ++ types_of sorts.now) }
{
    for sort in sorts {
        add_types(alloc, sort, found)?;
    }
    Ok(())
}

/// Adds the function at the type arguments of a use, and the types in them.
fn add_use(
    alloc: Global,
    f: u32,
    sorts: &[GenericSort],
    found: &mut Items<Member>,
) -> Result<(), NoMemory>
    ensures { IfOk result (λ _. found.new ≡ found.old ++ (function_at f sorts.now ∷ types_of sorts.now)) }
{
    add_member(alloc, Decl::Function(f), sorts, found)?;
    add_all_types(alloc, sorts, found)?;
    Ok(())
}

/// Adds what the expression mentions.
#[cycle(mentions)]
fn add_mentions(alloc: Global, e: &TypedExpr, found: &mut Items<Member>) -> Result<(), NoMemory>
    ensures { IfOk result (λ _. found.new ≡ found.old ++ mentions e.now) }
{
    add_types(alloc, &e.of, found)?;
    add_kind(alloc, &e.kind, found)?;
    Ok(())
}

/// Adds what is mentioned below an expression.
#[cycle(mentions)]
fn add_kind(alloc: Global, kind: &TypedKind, found: &mut Items<Member>) -> Result<(), NoMemory>
    ensures { IfOk result (λ _. found.new ≡ found.old ++ kind_mentions kind.now) }
{
    match kind {
        TypedKind::Int(_) => Ok(()),
        TypedKind::Bool(_) => Ok(()),
        TypedKind::Local(_) => Ok(()),
        TypedKind::Call(f, sorts, args) => {
            add_use(alloc, *f, sorts.as_slice(), found)?;
            add_all(alloc, args.as_slice(), found)?;
            Ok(())
        }
        TypedKind::Construct(_, sorts, args) => {
            add_all_types(alloc, sorts.as_slice(), found)?;
            add_all(alloc, args.as_slice(), found)?;
            Ok(())
        }
        TypedKind::Field(base, _) => add_mentions(alloc, base.get(), found),
        TypedKind::Unary(_, a) => add_mentions(alloc, a.get(), found),
        TypedKind::Binary(_, a, b) => {
            add_mentions(alloc, a.get(), found)?;
            add_mentions(alloc, b.get(), found)?;
            Ok(())
        }
        TypedKind::If(c, a, b) => {
            add_mentions(alloc, c.get(), found)?;
            add_mentions(alloc, a.get(), found)?;
            add_mentions(alloc, b.get(), found)?;
            Ok(())
        }
        TypedKind::Match(m, cases) => {
            add_mentions(alloc, m.get(), found)?;
            add_cases(alloc, cases.as_slice(), found)?;
            Ok(())
        }
        TypedKind::Val(bound, rest) => {
            add_mentions(alloc, bound.get(), found)?;
            add_mentions(alloc, rest.get(), found)?;
            Ok(())
        }
        TypedKind::Assert(c, rest) => {
            add_mentions(alloc, c.get(), found)?;
            add_mentions(alloc, rest.get(), found)?;
            Ok(())
        }
    }
}

/// Adds what the expressions mention.
#[cycle(mentions)]
fn add_all(alloc: Global, es: &[TypedExpr], found: &mut Items<Member>) -> Result<(), NoMemory>
    ensures { IfOk result (λ _. found.new ≡ found.old ++ joined (map mentions es.now)) }
{
    for e in es {
        add_mentions(alloc, e, found)?;
    }
    Ok(())
}

/// Adds what the cases mention.
#[cycle(mentions)]
fn add_cases(alloc: Global, cases: &[TypedCase], found: &mut Items<Member>) -> Result<(), NoMemory>
    ensures { IfOk result (λ _. found.new ≡ found.old ++ joined (map case_mentions cases.now)) }
{
    for c in cases {
        add_case(alloc, c, found)?;
    }
    Ok(())
}

/// Adds what the case mentions, in its guard and its body.
#[cycle(mentions)]
fn add_case(alloc: Global, c: &TypedCase, found: &mut Items<Member>) -> Result<(), NoMemory>
    ensures { IfOk result (λ _. found.new ≡ found.old ++ case_mentions c.now) }
{
    add_guard(alloc, &c.guard, found)?;
    add_mentions(alloc, &c.body, found)?;
    Ok(())
}

/// Adds what the guard mentions, if one is written.
#[cycle(mentions)]
fn add_guard(
    alloc: Global,
    guard: &Option<TypedExpr>,
    found: &mut Items<Member>,
) -> Result<(), NoMemory>
    ensures { IfOk result (λ _. found.new ≡ found.old ++ guard_mentions guard.now) }
{
    match guard {
        None => Ok(()),
        Some(e) => add_mentions(alloc, e, found),
    }
}

/// Adds what the postcondition mentions, if one is written.
fn add_post(
    alloc: Global,
    post: &Option<TypedPost>,
    found: &mut Items<Member>,
) -> Result<(), NoMemory>
    ensures { IfOk result (λ _. found.new ≡ found.old ++ post_mentions post.now) }
{
    match post {
        None => Ok(()),
        Some(post) => add_mentions(alloc, &post.claim, found),
    }
}

/// Adds the types of the parameters.
fn add_params(
    alloc: Global,
    params: &[TypedParam],
    found: &mut Items<Member>,
) -> Result<(), NoMemory>
    ensures { IfOk result (λ _. found.new ≡ found.old ++ joined (map param_types params.now)) }
{
    for param in params {
        add_types(alloc, &param.of, found)?;
    }
    Ok(())
}

/// Adds what the function mentions in its parameters and its result.
fn add_signature(alloc: Global, d: &TypedDef, found: &mut Items<Member>) -> Result<(), NoMemory>
    ensures { IfOk result (λ _. found.new ≡ found.old ++ signature_mentions d.now) }
{
    add_params(alloc, d.params.as_slice(), found)?;
    add_types(alloc, &d.result, found)?;
    Ok(())
}

/// Adds what the function mentions in its contract and its body.
fn add_text(alloc: Global, d: &TypedDef, found: &mut Items<Member>) -> Result<(), NoMemory>
    ensures { IfOk result (λ _. found.new ≡ found.old ++ text_mentions d.now) }
{
    add_all(alloc, d.pre.as_slice(), found)?;
    add_all(alloc, d.measure.as_slice(), found)?;
    add_mentions(alloc, &d.body, found)?;
    add_post(alloc, &d.post, found)?;
    Ok(())
}

/// Adds what the function mentions.
fn add_def(alloc: Global, d: &TypedDef, found: &mut Items<Member>) -> Result<(), NoMemory>
    ensures { IfOk result (λ _. found.new ≡ found.old ++ def_mentions d.now) }
{
    add_signature(alloc, d, found)?;
    add_text(alloc, d, found)?;
    Ok(())
}

/// Adds the types of the constructor's fields, where it is one of the root.
fn add_ctor(
    alloc: Global,
    r: u32,
    ctor: &TypedCtor,
    found: &mut Items<Member>,
) -> Result<(), NoMemory>
    ensures { IfOk result (λ _. found.new ≡ found.old ++ ctor_mentions r ctor.now) }
{
    if ctor.root != r {
        return Ok(());
    }
    add_all_types(alloc, ctor.fields.as_slice(), found)
}

/// Adds the types of the fields of each constructor of the root.
fn add_root(
    alloc: Global,
    r: u32,
    ctors: &[TypedCtor],
    found: &mut Items<Member>,
) -> Result<(), NoMemory>
    ensures { IfOk result (λ _. found.new ≡ found.old ++ joined (map (ctor_mentions r) ctors.now)) }
{
    for ctor in ctors {
        add_ctor(alloc, r, ctor, found)?;
    }
    Ok(())
}

/// What a declaration mentions, over its own type parameters. The only error is want of memory.
pub(crate) fn mentions_of(alloc: Global, typed: &Typed, of: Decl) -> Result<Items<Member>, NoMemory>
    ensures { IfOk result (λ ms. ms ≡ decl_mentions typed.now of) }
{
    let mut found = Items::new(alloc);
    match of {
        Decl::Function(f) => match at(typed.defs.as_slice(), f as usize) {
            None => {}
            Some(d) => add_def(alloc, d, &mut found)?,
        },
        Decl::Root(r) => add_root(alloc, r, typed.ctors.as_slice(), &mut found)?,
    }
    Ok(found)
}
