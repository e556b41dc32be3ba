//! Patterns at the arguments of an instance.

ghost use Rattle.std.specs.Prelude.{◌≡◌, IfOk, map, slice_get};
ghost use Rattle.pp_translation.specs.Numbers.{args_of, ctor_number, fields_of};
ghost use Rattle.pp_typed.specs.Put.{put};
ghost use Rattle.pp_numbers.specs.Tables.{AreTables};
ghost use Rattle.pp_translation.specs.Patterns as spec;

use crate::NoMemory;
use pp_generic::copies;
use pp_list::{Boxed, Items, at};
use pp_numbers::{Numbers, args_of, puts};
use pp_prog::{CtorId, Pattern, Patterns};
use pp_typed::{GenericSort, GenericSorts, Typed, TypedPattern, TypedPatternKind};
use std::alloc::Global;

/// The sorts of the fields of constructor c, at the arguments of a sort.
fn fields_at(
    alloc: Global,
    typed: &Typed,
    c: u32,
    sort: &GenericSort,
) -> Result<GenericSorts, NoMemory>
    ensures { IfOk result (λ ss. ss ≡ map (put (args_of sort.now)) (fields_of (slice_get typed.now.ctors c))) }
{
    match at(typed.ctors.as_slice(), c as usize) {
        None => Ok(Items::new(alloc)),
        Some(k) => puts(alloc, args_of(sort), k.fields.as_slice()),
    }
}

/// The constructor of the program that constructor c is at the arguments of a sort.
fn ctor_at(
    alloc: Global,
    typed: &Typed,
    numbers: &Numbers,
    c: u32,
    sort: &GenericSort,
) -> Result<CtorId, NoMemory>
    requires { AreTables typed.now.ctors numbers.now }
    ensures { IfOk result (λ k. k ≡ ctor_number typed.now.ctors numbers.now.roots c (args_of sort.now)) }
{
    let args = copies(alloc, args_of(sort))?;
    Ok(numbers.ctor(typed.ctors.as_slice(), c, args))
}

fn bound_if(alloc: Global, binds: bool, pattern: Pattern) -> Result<Pattern, NoMemory>
    ensures { IfOk result (λ p. p ≡ spec.bound_if binds pattern) }
{
    if binds {
        return Ok(Pattern::Bind(Boxed::new(alloc, pattern)?));
    }
    Ok(pattern)
}

/// The pattern of the program that a typed pattern is, for values of a sort without type parameters. The only error is
/// want of memory.
#[cycle(patterns)]
pub(crate) fn pattern_at(
    alloc: Global,
    typed: &Typed,
    numbers: &Numbers,
    pattern: &TypedPattern,
    sort: &GenericSort,
) -> Result<Pattern, NoMemory>
    requires { AreTables typed.now.ctors numbers.now }
    ensures { IfOk result (λ p. p ≡ spec.pattern_at typed.now numbers.now.roots pattern.now sort.now) }
{
    let whole = kind_at(alloc, typed, numbers, &pattern.kind, sort)?;
    bound_if(alloc, pattern.binds, whole)
}

#[cycle(patterns)]
fn kind_at(
    alloc: Global,
    typed: &Typed,
    numbers: &Numbers,
    kind: &TypedPatternKind,
    sort: &GenericSort,
) -> Result<Pattern, NoMemory>
    requires { AreTables typed.now.ctors numbers.now }
    ensures { IfOk result (λ p. p ≡ spec.kind_at typed.now numbers.now.roots kind.now sort.now) }
{
    match kind {
        TypedPatternKind::Any => Ok(Pattern::Any),
        TypedPatternKind::Int(n) => Ok(Pattern::Int(*n)),
        TypedPatternKind::Bool(b) => Ok(Pattern::Bool(*b)),
        TypedPatternKind::Ctor(c, parts) => {
            let ctor = ctor_at(alloc, typed, numbers, *c, sort)?;
            let fields = fields_at(alloc, typed, *c, sort)?;
            let inner = each_at(alloc, typed, numbers, parts.as_slice(), fields.as_slice())?;
            Ok(Pattern::Ctor(ctor, inner))
        }
    }
}

/// Each pattern at the sort at its place, as long as there are both.
#[cycle(patterns)]
fn each_at(
    alloc: Global,
    typed: &Typed,
    numbers: &Numbers,
    patterns: &[TypedPattern],
    sorts: &[GenericSort],
) -> Result<Patterns, NoMemory>
    requires { AreTables typed.now.ctors numbers.now }
    ensures { IfOk result (λ ps. ps ≡ spec.each_at (map (spec.pattern_at typed.now numbers.now.roots) patterns.now)
        sorts.now) }
{
    let mut done = Items::new(alloc);
    let count = patterns.len().min(sorts.len());
    for i in 0..count {
        done.push(pattern_at(alloc, typed, numbers, &patterns[i], &sorts[i])?)?;
    }
    Ok(done)
}
