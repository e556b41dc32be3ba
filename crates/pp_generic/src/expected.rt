//! What is expected of an expression.

ghost use Rattle.std.specs.Prelude.{◌≡◌, IfOk, slice_get};
ghost use Rattle.pp_generic.specs.Expected.{exact, expect, expect_found, whole, known, fits};

use crate::limit::{MOST_NODES, take_node};
use crate::{Found, NoMemory};
use pp_list::{Items, at};
use pp_typed::GenericSort;
use std::alloc::Global;

/// A sort of which parts may be open. Where the whole is open, nothing is expected.
#[derive(Drop)]
pub enum Expected {
    Open,
    Int,
    Bool,
    Param(u32),
    Root(u32, Items<Expected>),
}

/// Exactly this sort. The only error is want of memory.
pub fn exact(alloc: Global, sort: &GenericSort) -> Result<Expected, NoMemory>
    ensures { IfOk result (λ e. e ≡ exact sort.now) }
{
    let mut left = u32::MAX;
    exact_within(alloc, sort, &mut left)
}

/// Exactly this sort, of no more nodes than are left.
fn exact_within(alloc: Global, sort: &GenericSort, left: &mut u32) -> Result<Expected, NoMemory>
    ensures { IfOk result (λ e. e ≡ exact sort.now) }
{
    take_node(left)?;
    match sort {
        GenericSort::Int => Ok(Expected::Int),
        GenericSort::Bool => Ok(Expected::Bool),
        GenericSort::Param(i) => Ok(Expected::Param(*i)),
        GenericSort::Root(r, parts) => {
            let parts = parts.as_slice();
            let mut done = Items::new(alloc);
            for part in parts {
                done.push(exact_within(alloc, part, left)?)?;
            }
            Ok(Expected::Root(*r, done))
        }
    }
}

/// What is expected where a declared sort stands, as far as its parameters are found. The only error is want of memory;
/// there is none for more than `MOST_NODES` nodes.
pub fn expect(
    alloc: Global,
    found: &[Option<GenericSort>],
    sort: &GenericSort,
) -> Result<Expected, NoMemory>
    ensures { IfOk result (λ e. e ≡ expect found.now sort.now) }
{
    let mut left = MOST_NODES;
    expect_within(alloc, found, sort, &mut left)
}

/// What is expected where a declared sort stands, of no more nodes than are left.
fn expect_within(
    alloc: Global,
    found: &[Option<GenericSort>],
    sort: &GenericSort,
    left: &mut u32,
) -> Result<Expected, NoMemory>
    ensures { IfOk result (λ e. e ≡ expect found.now sort.now) }
{
    match sort {
        GenericSort::Int => {
            take_node(left)?;
            Ok(Expected::Int)
        }
        GenericSort::Bool => {
            take_node(left)?;
            Ok(Expected::Bool)
        }
        GenericSort::Param(i) => expect_found(alloc, found, *i, left),
        GenericSort::Root(r, parts) => {
            take_node(left)?;
            let parts = parts.as_slice();
            let mut done = Items::new(alloc);
            for part in parts {
                done.push(expect_within(alloc, found, part, left)?)?;
            }
            Ok(Expected::Root(*r, done))
        }
    }
}

/// What is expected in place of this parameter.
fn expect_found(
    alloc: Global,
    found: &[Option<GenericSort>],
    i: u32,
    left: &mut u32,
) -> Result<Expected, NoMemory>
    ensures { IfOk result (λ e. e ≡ expect_found (slice_get found.now i)) }
{
    match at(found, i as usize) {
        Some(Some(sort)) => exact_within(alloc, sort, left),
        Some(None) => {
            take_node(left)?;
            Ok(Expected::Open)
        }
        None => {
            take_node(left)?;
            Ok(Expected::Open)
        }
    }
}

/// The one sort that is expected; None exactly where a part is open. The only error is want of memory.
pub fn whole(alloc: Global, expected: &Expected) -> Result<Option<GenericSort>, NoMemory>
    ensures { IfOk result (λ s. s ≡ whole expected.now) }
{
    match expected {
        Expected::Open => Ok(None),
        Expected::Int => Ok(Some(GenericSort::Int)),
        Expected::Bool => Ok(Some(GenericSort::Bool)),
        Expected::Param(i) => Ok(Some(GenericSort::Param(*i))),
        Expected::Root(r, parts) => {
            let parts = parts.as_slice();
            let mut done = Items::new(alloc);
            for part in parts {
                match whole(alloc, part)? {
                    Some(sort) => done.push(sort)?,
                    None => return Ok(None),
                }
            }
            Ok(Some(GenericSort::Root(*r, done)))
        }
    }
}

/// A declared sort with what is found in place of its parameters; None exactly where one of them isn't found. The only
/// error is want of memory; there is none for more than `MOST_NODES` nodes.
pub fn known(
    alloc: Global,
    found: &[Option<GenericSort>],
    sort: &GenericSort,
) -> Result<Option<GenericSort>, NoMemory>
    ensures { IfOk result (λ s. s ≡ known found.now sort.now) }
{
    let expected = expect(alloc, found, sort)?;
    whole(alloc, &expected)
}

/// Whether a sort is as expected. It takes no memory.
pub fn fits(expected: &Expected, sort: &GenericSort) -> bool
    ensures { result ≡ fits expected.now sort.now }
{
    match (expected, sort) {
        (Expected::Open, _) => true,
        (Expected::Int, GenericSort::Int) => true,
        (Expected::Bool, GenericSort::Bool) => true,
        (Expected::Param(i), GenericSort::Param(j)) => *i == *j,
        (Expected::Root(r, xs), GenericSort::Root(q, ys)) => {
            let xs = xs.as_slice();
            let ys = ys.as_slice();
            if *r != *q || xs.len() != ys.len() {
                return false;
            }
            for i in 0..xs.len() {
                if !fits(&xs[i], &ys[i]) {
                    return false;
                }
            }
            true
        }
        _ => false,
    }
}
