//! Components of measures that are numbers: what steps say that tell whether one goes down.

ghost use Rattle.std.specs.Prelude.{◌≡◌, true, OnOk, slice_get};
ghost use Rattle.pp_prog.specs.declared.sort.Sort.TheVariants as sort;
ghost use Rattle.pp_closure.specs.Facts.{Holds};
ghost use Rattle.pp_closure.specs.Keeps.{Keeps};
ghost use Rattle.pp_closure.specs.Order.{Ordered};
ghost use Rattle.pp_closure.specs.Steps as looked;
ghost use Rattle.pp_closure.specs.Valuation.{Valuation};

use crate::NoMemory;
use crate::bounds::learn_bounds;
use crate::chains::comparison_at;
use crate::facts::Facts;
use crate::offsets::learn_offsets;
use crate::orders::Order;
use crate::seen::Seen;
use pp_list::at;
use pp_prog::{BinaryOp, Sort};
use pp_steps::Step;

/// If the step tells whether a number goes down that isn't negative: what bounds and other orders say of that. The only
/// error is want of memory.
pub(crate) fn learn_descent(
    facts: &mut Facts,
    all: &[Step],
    seen: &mut Seen,
    number: u32,
) -> Result<(), NoMemory>
    ensures { OnOk result (Keeps all.now facts.old facts.new) }
{
    match comparison_at(facts, all, number) {
        Some(order) => {
            learn_bounds(facts, number, order.low, order.high, order.positive);
            learn_offsets(facts, all, seen, number, order)
        }
        None => Ok(()),
    }
}

/// The order that the step says of two numbers, where it tells whether one of them goes down from the other: of a number
/// that is known not to be negative, whether it is less.
pub(crate) fn descent_at(facts: &Facts, all: &[Step], number: u32) -> Option<Order>
    ensures { (v : Valuation all.now) → Holds v.values facts.now → Ordered v.values number result }
{
    match at(all, number as usize) {
        Some(Step::GoesDown(new, old)) => {
            if facts.low(*new) >= 0 && is_int(all, *old) {
                Some(Order {
                    low: *new,
                    high: *old,
                    positive: true,
                })
            } else {
                None
            }
        }
        _ => None,
    }
}

/// Whether the step is a number, as far as the step by itself shows it.
pub(crate) fn is_int(all: &[Step], number: u32) -> bool
    ensures { (v : Valuation all.now) → result ≡ true → v.sorts number ≡ sort.Int }
{
    int_in(all, number)
}

fn int_in(all: &[Step], number: u32) -> bool
    ensures { result ≡ looked.int_in (slice_get all.now number) }
{
    match at(all, number as usize) {
        Some(Step::Int(_)) => true,
        Some(Step::Answer(call)) => is_int_sort(call.result),
        Some(Step::Open(sort)) => is_int_sort(*sort),
        Some(Step::Binary(BinaryOp::Sub, _, _)) => true,
        _ => false,
    }
}

fn is_int_sort(sort: Sort) -> bool
    ensures { result ≡ looked.is_int_sort sort }
{
    match sort {
        Sort::Int => true,
        _ => false,
    }
}
