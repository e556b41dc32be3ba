//! What is found of the type parameters of a declaration.

ghost use Rattle.std.specs.Prelude.{◌≡◌, IfOk, OnOk};
ghost use Rattle.pp_generic.specs.Expected.{every};
ghost use Rattle.pp_generic.specs.Found.{none_found, note, learn};

use crate::{Expected, NoMemory, copy, whole};
use pp_list::{Items, at};
use pp_typed::{GenericSort, GenericSorts};
use std::alloc::Global;

/// What is found of each type parameter so far.
pub type Found = Items<Option<GenericSort>>;

/// Nothing is found of so many parameters. The only error is want of memory.
pub fn none_found(alloc: Global, count: u32) -> Result<Found, NoMemory>
    ensures { IfOk result (λ found. found ≡ none_found count) }
{
    let mut found = Items::new(alloc);
    for i in 0..count {
        let _ = i;
        found.push(None)?;
    }
    Ok(found)
}

/// Adds what the sort that stands in the place of a declared one tells of the parameters. The only error is want of
/// memory.
pub fn learn(
    alloc: Global,
    declared: &GenericSort,
    actual: &Expected,
    found: &mut Found,
) -> Result<(), NoMemory>
    ensures { OnOk result (found.new ≡ learn declared.now actual.now found.old) }
{
    match (declared, actual) {
        (GenericSort::Param(i), _) => {
            let sort = whole(alloc, actual)?;
            note(found, *i, sort);
            Ok(())
        }
        (GenericSort::Root(r, xs), Expected::Root(q, ys)) => {
            if *r != *q {
                return Ok(());
            }
            let xs = xs.as_slice();
            let ys = ys.as_slice();
            for i in 0..xs.len().min(ys.len()) {
                learn(alloc, &xs[i], &ys[i], found)?;
            }
            Ok(())
        }
        _ => Ok(()),
    }
}

/// Notes the sort of a parameter, where none was found before.
fn note(found: &mut Found, i: u32, sort: Option<GenericSort>)
    ensures { found.new ≡ note i sort found.old }
{
    let place = i as usize;
    match at(found.as_slice(), place) {
        Some(None) => {
            if let Some(sort) = sort {
                found.set(place, Some(sort));
            }
        }
        Some(Some(_)) => {}
        None => {}
    }
}

/// The sorts of all parameters; None exactly where one of them isn't found. The only error is want of memory.
pub fn all_found(
    alloc: Global,
    found: &[Option<GenericSort>],
) -> Result<Option<GenericSorts>, NoMemory>
    ensures { IfOk result (λ sorts. sorts ≡ every found.now) }
{
    let mut done = Items::new(alloc);
    for sort in found {
        match sort {
            Some(sort) => done.push(copy(alloc, sort)?)?,
            None => return Ok(None),
        }
    }
    Ok(Some(done))
}
