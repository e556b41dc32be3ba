//! The first root without a finite value.

ghost use Rattle.std.specs.Prelude.{◌≡◌, ◌<◌, ◌^◌, ◌*◌, false, length, replicate, IfOk, MatchOption};
ghost use Rattle.pp_inhabited.specs.Laws.{FewTypeParams};
ghost use Rattle.pp_inhabited.specs.Settled.{HaveRoots};
ghost use Rattle.pp_inhabited.specs.Table.{IsFirstUnwritten, NoneUnwritten};
ghost use Rattle.pp_inhabited.specs.Value.{AreInhabited, IsFirstUninhabited};

use crate::NoMemory;
use crate::order::visit_in_order;
use crate::table::{ROWS, look};
use crate::visit::settle;
use pp_list::Items;
use pp_typed::{TypedCtor, TypedRoot};
use std::alloc::Global;

/// The first root that has no finite value, where type parameters count as inhabited; None exactly where each has
/// one. The only error is want of memory.
pub fn first_uninhabited(
    alloc: Global,
    roots: &[TypedRoot],
    ctors: &[TypedCtor],
) -> Result<Option<u32>, NoMemory>
    requires roots { length roots.now < 2 ^ 32 }
    requires few { FewTypeParams roots.now }
    requires owners { HaveRoots roots.now ctors.now }
    ensures { IfOk result
        (λ o. MatchOption o (AreInhabited roots.now ctors.now) (IsFirstUninhabited roots.now ctors.now)) }
{
    let mut rows = empty_rows(alloc, ROWS * roots.len())?;
    visit_in_order(alloc, roots, ctors, &mut rows)?;
    settle(roots, ctors, &mut rows);
    Ok(first_unwritten(rows.as_slice(), roots.len() as u32))
}

/// So many rows, none of them written. The only error is want of memory.
fn empty_rows(alloc: Global, count: usize) -> Result<Items<bool>, NoMemory>
    ensures { IfOk result (λ rows. rows ≡ replicate count false) }
{
    let mut rows = Items::new(alloc);
    for _ in 0..count {
        rows.push(false)?;
    }
    Ok(rows)
}

/// The first of the roots whose row for values of all type parameters isn't written.
fn first_unwritten(rows: &[bool], roots: u32) -> Option<u32>
    ensures { MatchOption result (NoneUnwritten rows.now roots) (IsFirstUnwritten rows.now roots) }
{
    for root in 0..roots {
        if !look(rows, root, 0) {
            return Some(root);
        }
    }
    None
}
