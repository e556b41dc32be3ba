//! The places of the constructors of each root.

ghost use Rattle.std.specs.Prelude.{◌≡◌, ◌<◌, [], All, length, IfOk, OnOk};
ghost use Rattle.pp_names.specs.Find.{owners_of};
ghost use Rattle.pp_names.specs.Places.{AreGrouped, lists_of, pushed_at};

use crate::NoMemory;
use pp_typed::TypedCtor;
use std::alloc::Global;

/// For each of so many roots the places of its constructors, in order; `count` is the number of all constructors. The
/// only error is want of memory.
pub(crate) fn ctors_by_root(
    alloc: Global,
    roots: usize,
    ctors: &[TypedCtor],
    count: u32,
) -> Result<Vec<Vec<u32>>, NoMemory>
    requires within { All (λ r. r < roots) (owners_of ctors.now) }
    requires count { count ≡ length ctors.now }
    ensures { IfOk result (λ lists. AreGrouped (lists_of lists) roots (owners_of ctors.now)) }
{
    let mut lists = empty_lists(alloc, roots)?;
    for i in 0..count {
        push_at(&mut lists, ctors[i as usize].root as usize, i)?;
    }
    Ok(lists)
}

/// So many lists without items.
fn empty_lists(alloc: Global, count: usize) -> Result<Vec<Vec<u32>>, NoMemory>
    ensures { IfOk result (λ lists. AreGrouped (lists_of lists) count []) }
{
    let mut lists = Vec::new(alloc);
    for _ in 0..count {
        lists.push(Vec::new(alloc))?;
    }
    Ok(lists)
}

/// Adds an item at the end of the list at this place.
fn push_at(lists: &mut Vec<Vec<u32>>, at: usize, item: u32) -> Result<(), NoMemory>
    requires { at < length (lists_of lists.old) }
    ensures { OnOk result (lists_of lists.new ≡ pushed_at (lists_of lists.old) at item) }
{
    lists[at].push(item)?;
    Ok(())
}
