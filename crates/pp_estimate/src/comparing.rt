//! The components of a measure that are compared at a call, counted.

ghost use Rattle.std.specs.Prelude.{◌≡◌, ◌∷◌, [], IfOk, OnOk, drop};
ghost use Rattle.pp_estimate.specs.Bounds.{AreRows};
ghost use Rattle.pp_estimate.specs.Counted.{counted};
ghost use Rattle.pp_estimate.specs.Visits as spec;

use crate::NoMemory;
use crate::counts::Counts;
use crate::shape::Shape;
use crate::sizes::Rows;
use crate::weights::{COMPARED_INT, descent_weight};
use pp_list::at;
use pp_prog::{CheckId, Sort, TypeTable};
use std::alloc::Global;

/// Counts the comparison of the components of a measure, where the site has a measure check.
pub(crate) fn compare(
    alloc: Global,
    types: &TypeTable,
    rows: &mut Rows,
    counts: &mut Counts,
    check: Option<CheckId>,
    new: &[Shape],
    old: &[Shape],
) -> Result<(), NoMemory>
    requires { AreRows types.now rows.old }
    ensures counted { OnOk result (counts.new ≡ counted counts.old (spec.compared types.now check new.now old.now)) }
    ensures rows { OnOk result (AreRows types.now rows.new) }
{
    match check {
        None => Ok(()),
        Some(_) => compare_all(alloc, types, rows, counts, new, old),
    }
}

fn compare_all(
    alloc: Global,
    types: &TypeTable,
    rows: &mut Rows,
    counts: &mut Counts,
    new: &[Shape],
    old: &[Shape],
) -> Result<(), NoMemory>
    requires { AreRows types.now rows.old }
    ensures counted { OnOk result (counts.new ≡ counted counts.old (spec.comparison types.now new.now old.now)) }
    ensures rows { OnOk result (AreRows types.now rows.new) }
{
    for i in 0..new.len() {
        compare_at(alloc, types, rows, counts, new[i], old, i)?;
    }
    Ok(())
}

/// Counts the comparison of a component with the old one at its place, if there is one.
fn compare_at(
    alloc: Global,
    types: &TypeTable,
    rows: &mut Rows,
    counts: &mut Counts,
    new: Shape,
    old: &[Shape],
    i: usize,
) -> Result<(), NoMemory>
    requires { AreRows types.now rows.old }
    ensures counted { OnOk result (counts.new
        ≡ counted counts.old (spec.comparison types.now (new ∷ []) (drop i old.now))) }
    ensures rows { OnOk result (AreRows types.now rows.new) }
{
    match at(old, i) {
        None => Ok(()),
        Some(old) => compare_one(alloc, types, rows, counts, new, old.height),
    }
}

fn compare_one(
    alloc: Global,
    types: &TypeTable,
    rows: &mut Rows,
    counts: &mut Counts,
    new: Shape,
    old: u64,
) -> Result<(), NoMemory>
    requires { AreRows types.now rows.old }
    ensures counted { OnOk result (counts.new
        ≡ counted counts.old (spec.component_events types.now new.sort new.height old)) }
    ensures rows { OnOk result (AreRows types.now rows.new) }
{
    match new.sort {
        Sort::Int => counts.add_work(COMPARED_INT),
        Sort::Bool => {}
        Sort::Tree(_) => {
            let weight = descent_weight(alloc, types, rows, new, old)?;
            counts.add_compare();
            counts.add_work(weight);
        }
    }
    Ok(())
}
