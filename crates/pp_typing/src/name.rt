//! Names and fields.

ghost use Rattle.std.specs.Prelude.{◌≡◌, Ok};
ghost use Rattle.pp_fault.specs.Part.{Tells};
ghost use Rattle.pp_rules.specs.Elab.{applied, named, no_args, selected};
ghost use Rattle.pp_rules.specs.Scope.{place};
ghost use Rattle.pp_rules.specs.Shapes.{named_by};
ghost use Rattle.pp_tree.specs.Plain.{no_types};
ghost use Rattle.pp_typed.specs.declared.sort.GenericSort.TheViews.{out-GenericSort};
ghost use Rattle.pp_typing.specs.Views.{env_of, scope_of};

use crate::apply::{finished, started};
use crate::checks::{agreed, flaw, typed};
use crate::lookup::{field_place, field_sort, named_by, only_ctor};
use crate::scope::place;
use crate::{Context, Local};
use pp_fault::{Halt, Rule};
use pp_generic::{Expected, copy, put};
use pp_list::{Boxed, Items};
use pp_typed::{GenericSort, TypedExpr, TypedKind};
use std::alloc::Global;

/// A place as it is written down. No list in memory is so long that it has none.
fn number(i: usize) -> Result<u32, Halt>
    ensures { Tells result (Ok i) }
{
    if i > 4294967295 {
        return Err(Halt::Memory);
    }
    Ok(i as u32)
}

/// A name: the innermost local of that name, else a function without a parameter list, else a case object.
pub(crate) fn named(
    alloc: Global,
    context: &Context,
    at: u32,
    name: &str,
    scope: &[Local],
    expected: &Expected,
) -> Result<Boxed<TypedExpr>, Halt>
    ensures { Tells result (named (env_of context.now) (scope_of scope.now) at expected.now name.now (place name.now
        (scope_of scope.now))) }
{
    match place(scope, name) {
        None => bare(alloc, context, at, name, expected),
        Some(i) => {
            let number = number(i)?;
            match pp_list::at(scope, i) {
                None => flaw(alloc, context, Rule::Unknown, name, at),
                Some(local) => {
                    let of = copy(alloc, &local.of)?;
                    let local = typed(alloc, context, at, of, TypedKind::Local(number))?;
                    agreed(alloc, context, expected, name, local)
                }
            }
        }
    }
}

/// A name that is no local.
fn bare(
    alloc: Global,
    context: &Context,
    at: u32,
    name: &str,
    expected: &Expected,
) -> Result<Boxed<TypedExpr>, Halt>
    ensures { Tells result (applied (env_of context.now) at expected.now name.now no_types 0 (no_args
        (env_of context.now)) (named_by context.now.names.now name.now)) }
{
    match named_by(alloc, context.names, name)? {
        None => flaw(alloc, context, Rule::Unknown, name, at),
        Some(callee) => {
            if callee.params.len() != 0 {
                return flaw(alloc, context, Rule::Arity, name, at);
            }
            let found = started(alloc, context, at, name, &[], &callee, expected)?;
            let args = Items::new(alloc);
            finished(alloc, context, at, name, callee, args, found, expected)
        }
    }
}

/// A field of the one constructor of the base's root.
pub(crate) fn selected(
    alloc: Global,
    context: &Context,
    at: u32,
    name: &str,
    base: Boxed<TypedExpr>,
    expected: &Expected,
) -> Result<Boxed<TypedExpr>, Halt>
    ensures { Tells result (selected (env_of context.now) at expected.now name.now base (out-GenericSort base.of)) }
{
    let declared = context.names.declared();
    let GenericSort::Root(root, args) = &base.get().of else {
        return flaw(alloc, context, Rule::Mismatch, name, at);
    };
    let Some(ctor) = only_ctor(context.names, *root) else {
        return flaw(alloc, context, Rule::Mismatch, name, at);
    };
    let Some(field) = field_place(declared, ctor, name) else {
        return flaw(alloc, context, Rule::Unknown, name, at);
    };
    let Some(sort) = field_sort(declared, ctor, field) else {
        return flaw(alloc, context, Rule::Unknown, name, at);
    };
    let of = put(alloc, args.as_slice(), sort)?;
    let kind = TypedKind::Field(base, number(field)?);
    let e = typed(alloc, context, at, of, kind)?;
    agreed(alloc, context, expected, name, e)
}
