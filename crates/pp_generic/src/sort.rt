//! Copies and equality of sorts, and sorts put in place of the parameters of a sort.

ghost use Rattle.std.specs.Prelude.{◌≡◌, ◌↔◌, IsTrue, IfOk, unwrap_or, slice_get};
ghost use Rattle.pp_typed.specs.Equal.{equal};
ghost use Rattle.pp_typed.specs.Put.{put, put_at};
ghost use Rattle.pp_typed.specs.declared.sort.GenericSort.TheVariants.{Param};

use crate::NoMemory;
use crate::limit::{MOST_NODES, take_node};
use pp_list::{Items, at};
use pp_typed::{GenericSort, GenericSorts};
use std::alloc::Global;

/// A sort that equals this one. The only error is want of memory.
pub fn copy(alloc: Global, sort: &GenericSort) -> Result<GenericSort, NoMemory>
    ensures { IfOk result (λ s. s ≡ sort.now) }
{
    let mut left = u32::MAX;
    copy_within(alloc, sort, &mut left)
}

/// A sort that equals this one, of no more nodes than are left.
fn copy_within(alloc: Global, sort: &GenericSort, left: &mut u32) -> Result<GenericSort, NoMemory>
    ensures { IfOk result (λ s. s ≡ sort.now) }
{
    take_node(left)?;
    match sort {
        GenericSort::Int => Ok(GenericSort::Int),
        GenericSort::Bool => Ok(GenericSort::Bool),
        GenericSort::Param(i) => Ok(GenericSort::Param(*i)),
        GenericSort::Root(r, args) => {
            let args = args.as_slice();
            let mut done = Items::new(alloc);
            for arg in args {
                done.push(copy_within(alloc, arg, left)?)?;
            }
            Ok(GenericSort::Root(*r, done))
        }
    }
}

/// Sorts that equal these. The only error is want of memory.
pub fn copies(alloc: Global, sorts: &[GenericSort]) -> Result<GenericSorts, NoMemory>
    ensures { IfOk result (λ ss. ss ≡ sorts.now) }
{
    let mut done = Items::new(alloc);
    for sort in sorts {
        done.push(copy(alloc, sort)?)?;
    }
    Ok(done)
}

/// Whether the two are the same sort.
fn same(a: &GenericSort, b: &GenericSort) -> bool
    ensures { IsTrue result ↔ (a.now ≡ b.now) }
{
    match (a, b) {
        (GenericSort::Int, GenericSort::Int) => true,
        (GenericSort::Bool, GenericSort::Bool) => true,
        (GenericSort::Param(i), GenericSort::Param(j)) => *i == *j,
        (GenericSort::Root(r, xs), GenericSort::Root(q, ys)) => {
            let xs = xs.as_slice();
            let ys = ys.as_slice();
            if *r != *q || xs.len() != ys.len() {
                return false;
            }
            for i in 0..xs.len() {
                if !same(&xs[i], &ys[i]) {
                    return false;
                }
            }
            true
        }
        _ => false,
    }
}

/// Whether the two are the same sort. It takes no memory.
#[tactic(auto, using(crate::proofs::Equal::agree))]
pub fn are_same(a: &GenericSort, b: &GenericSort) -> bool
    ensures value { result ≡ equal a.now b.now }
    ensures same { IsTrue result ↔ (a.now ≡ b.now) }
{
    same(a, b)
}

/// The sort with these sorts in place of its parameters, one for each. The only error is want of memory; there is none
/// for more than `MOST_NODES` nodes.
pub fn put(alloc: Global, args: &[GenericSort], sort: &GenericSort) -> Result<GenericSort, NoMemory>
    ensures { IfOk result (λ s. s ≡ put args.now sort.now) }
{
    let mut left = MOST_NODES;
    put_within(alloc, args, sort, &mut left)
}

/// The sort with these in place of its parameters, of no more nodes than are left.
fn put_within(
    alloc: Global,
    args: &[GenericSort],
    sort: &GenericSort,
    left: &mut u32,
) -> Result<GenericSort, NoMemory>
    ensures { IfOk result (λ s. s ≡ put args.now sort.now) }
{
    match sort {
        GenericSort::Int => {
            take_node(left)?;
            Ok(GenericSort::Int)
        }
        GenericSort::Bool => {
            take_node(left)?;
            Ok(GenericSort::Bool)
        }
        GenericSort::Param(i) => put_at(alloc, args, *i, left),
        GenericSort::Root(r, parts) => {
            take_node(left)?;
            let parts = parts.as_slice();
            let mut done = Items::new(alloc);
            for part in parts {
                done.push(put_within(alloc, args, part, left)?)?;
            }
            Ok(GenericSort::Root(*r, done))
        }
    }
}

/// The sort at this place, or else the parameter of that place.
fn put_at(
    alloc: Global,
    args: &[GenericSort],
    i: u32,
    left: &mut u32,
) -> Result<GenericSort, NoMemory>
    ensures { IfOk result (λ s. s ≡ put_at args.now i) }
{
    match at(args, i as usize) {
        Some(sort) => copy_within(alloc, sort, left),
        None => {
            take_node(left)?;
            Ok(GenericSort::Param(i))
        }
    }
}
