//! The table of datatypes.

ghost use Rattle.std.specs.Prelude.{◌≡◌, ◌<◌, ◌^◌, ◌++◌, ℕ, IfOk, length, map};
ghost use Rattle.pp_instances.specs.declared.member.Decl.TheVariants.{Root};
ghost use Rattle.pp_translation.specs.Numbers as spec;
ghost use Rattle.pp_numbers.specs.Tables.{HasRoom};
ghost use Rattle.pp_typed.specs.Sorted as sorted;

use crate::tables::{count_of, number_of};
use crate::{NoMemory, Numbers, sort_at};
use pp_instances::{Instance, Member};
use pp_list::Items;
use pp_prog::{Ctor, CtorId, Ctors, DataId, Datatype, Datatypes, Sort, Sorts};
use pp_text::Name;
use pp_typed::{GenericSort, Typed, TypedCtor};
use std::alloc::Global;

fn sorts_at(
    alloc: Global,
    numbers: &Numbers,
    args: &[GenericSort],
    sorts: &[GenericSort],
) -> Result<Sorts, NoMemory>
    requires { length numbers.now.roots < 2 ^ 31 }
    ensures { IfOk result (λ ss. ss ≡ map (spec.sort_at numbers.now.roots args.now) sorts.now) }
{
    let mut done = Items::new(alloc);
    for sort in sorts {
        done.push(sort_at(alloc, numbers, args, sort)?)?;
    }
    Ok(done)
}

fn ctor_at(
    alloc: Global,
    typed: &Typed,
    numbers: &Numbers,
    d: u32,
    args: &[GenericSort],
    c: &TypedCtor,
) -> Result<Ctor, NoMemory>
    requires { length numbers.now.roots < 2 ^ 31 }
    ensures { IfOk result (λ k. k ≡ spec.ctor_at typed.now numbers.now.roots d args.now c.now) }
{
    Ok(Ctor {
        name: Name::of(alloc, c.name.as_str())?,
        of: DataId(d),
        fields: sorts_at(alloc, numbers, args, c.fields.as_slice())?,
        object: c.object,
    })
}

/// Adds the constructors of root r at these arguments, as those of datatype d.
fn add_ctors(
    alloc: Global,
    typed: &Typed,
    numbers: &Numbers,
    d: u32,
    of: &Member,
    ctors: &mut Ctors,
) -> Result<(), NoMemory>
    requires { length numbers.now.roots < 2 ^ 31 }
    ensures { IfOk result (λ _. ctors.new ≡ ctors.old ++ spec.ctors_at typed.now numbers.now.roots d of.now) }
{
    let r = number_of(of.of);
    for c in typed.ctors.as_slice() {
        if c.root == r {
            ctors.push(ctor_at(alloc, typed, numbers, d, of.args.as_slice(), c)?)?;
        }
    }
    Ok(())
}

/// The constructors of the program: those of each datatype are those of its root, in program order. The only error is
/// want of memory.
pub fn ctors_of(alloc: Global, typed: &Typed, numbers: &Numbers) -> Result<Ctors, NoMemory>
    requires { length numbers.now.roots < 2 ^ 31 }
    ensures { IfOk result (λ cs. cs ≡ spec.ctors typed.now numbers.now.roots) }
{
    let mut ctors = Items::new(alloc);
    for d in 0..numbers.roots.len() {
        add_ctors(
            alloc,
            typed,
            numbers,
            d as u32,
            numbers.roots.at(d),
            &mut ctors,
        )?;
    }
    Ok(ctors)
}

/// The datatypes of the program, each with its printed name. The only error is want of memory.
pub fn datatypes_of(alloc: Global, typed: &Typed, roots: &[Instance]) -> Result<Datatypes, NoMemory>
    requires { HasRoom typed.now.ctors (map (spec.stands_for Root) roots.now) }
    ensures { IfOk result (λ ds. ds ≡ spec.datatypes typed.now roots.now) }
{
    let mut datatypes = Items::new(alloc);
    let mut first = 0;
    for i in 0..roots.len() {
        let root = &roots[i];
        let count = count_of(typed.ctors.as_slice(), root.number);
        datatypes.push(Datatype {
            name: Name::of(alloc, root.name.as_str())?,
            first: CtorId(first),
            count,
        })?;
        first += count;
    }
    Ok(datatypes)
}
