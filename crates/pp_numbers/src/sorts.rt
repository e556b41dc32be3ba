//! Sorts of a program.

ghost use Rattle.std.specs.Prelude.{◌≡◌, ◌<◌, ◌^◌, IfOk, length, map};
ghost use Rattle.pp_translation.specs.Numbers as spec;
ghost use Rattle.pp_typed.specs.Put.{put};

use crate::{NoMemory, Numbers};
use pp_generic::put;
use pp_list::Items;
use pp_prog::Sort;
use pp_typed::{GenericSort, GenericSorts};
use std::alloc::Global;

/// The arguments of a root; none of another sort. It takes no memory.
pub fn args_of(sort: &GenericSort) -> &[GenericSort]
    ensures { result.now ≡ spec.args_of sort.now }
{
    match sort {
        GenericSort::Root(_, args) => args.as_slice(),
        _ => &[],
    }
}

/// The sorts with these arguments in place of their parameters. The only error is want of memory.
pub fn puts(
    alloc: Global,
    args: &[GenericSort],
    sorts: &[GenericSort],
) -> Result<GenericSorts, NoMemory>
    ensures { IfOk result (λ ss. ss ≡ map (put args.now) sorts.now) }
{
    let mut done = Items::new(alloc);
    for sort in sorts {
        done.push(put(alloc, args, sort)?)?;
    }
    Ok(done)
}

/// The sort of the program that a sort without type parameters is. It takes no memory.
fn program_sort(numbers: &Numbers, sort: GenericSort) -> Sort
    requires { length numbers.now.roots < 2 ^ 31 }
    ensures { result ≡ spec.program_sort numbers.now.roots sort }
{
    match sort {
        GenericSort::Int => Sort::Int,
        GenericSort::Bool => Sort::Bool,
        GenericSort::Param(_) => Sort::Int,
        GenericSort::Root(r, args) => Sort::Tree(numbers.datatype(r, args)),
    }
}

/// The sort of the program that a sort is at these arguments. The only error is want of memory.
pub fn sort_at(
    alloc: Global,
    numbers: &Numbers,
    args: &[GenericSort],
    sort: &GenericSort,
) -> Result<Sort, NoMemory>
    requires { length numbers.now.roots < 2 ^ 31 }
    ensures { IfOk result (λ s. s ≡ spec.sort_at numbers.now.roots args.now sort.now) }
{
    Ok(program_sort(numbers, put(alloc, args, sort)?))
}
