//! When the measure of a call is below that of its caller.

ghost use Rattle.std.specs.Prelude.{◌≡◌, IfOk};
ghost use Rattle.pp_eval.specs.Measure as spec;
ghost use Rattle.pp_store.specs.Values.{AreHeld, IsHeld, value_of, values_of};

use crate::NoMemory;
use crate::head::{Look, are_equal, head, look_at};
use pp_eval::one_sort;
use pp_prog::{Ctor, Value};
use pp_store::{Held, Store};
use std::alloc::Global;

/// Whether the new measure values are below the old ones.
pub(crate) fn is_below(
    alloc: Global,
    store: &Store,
    ctors: &[Ctor],
    new: &[Held],
    old: &[Held],
) -> Result<bool, NoMemory>
    requires new { AreHeld store.now new.now }
    requires old { AreHeld store.now old.now }
    ensures { IfOk result (λ below. below ≡ spec.is_below ctors.now (values_of store.now new.now)
        (values_of store.now old.now)) }
{
    if of_one_shape(alloc, store, ctors, new, old) {
        falls(alloc, store, new, old)
    } else {
        Ok(false)
    }
}

/// Whether the lists are of one length, and the values at each place of one sort.
fn of_one_shape(alloc: Global, store: &Store, ctors: &[Ctor], new: &[Held], old: &[Held]) -> bool
    requires new { AreHeld store.now new.now }
    requires old { AreHeld store.now old.now }
    ensures { result ≡ spec.of_one_shape ctors.now (values_of store.now new.now) (values_of store.now old.now) }
{
    match new {
        [] => old.is_empty(),
        [x, xs @ ..] => match old {
            [] => false,
            [y, ys @ ..] => {
                one_sort(ctors, &head(alloc, store, *x), &head(alloc, store, *y))
                    && of_one_shape(alloc, store, ctors, xs, ys)
            }
        },
    }
}

/// Whether some component goes down, and all before it are equal.
fn falls(alloc: Global, store: &Store, new: &[Held], old: &[Held]) -> Result<bool, NoMemory>
    requires new { AreHeld store.now new.now }
    requires old { AreHeld store.now old.now }
    ensures { IfOk result (λ b. b ≡ spec.falls (values_of store.now new.now) (values_of store.now old.now)) }
{
    match new {
        [] => Ok(false),
        [x, xs @ ..] => match old {
            [] => Ok(false),
            [y, ys @ ..] => {
                if goes_down(alloc, store, *x, *y)? {
                    return Ok(true);
                }
                if are_equal(alloc, store, *x, *y)? {
                    falls(alloc, store, xs, ys)
                } else {
                    Ok(false)
                }
            }
        },
    }
}

/// Whether the component goes down from the old value to the new one.
fn goes_down(alloc: Global, store: &Store, new: Held, old: Held) -> Result<bool, NoMemory>
    requires new { IsHeld store.now new }
    requires old { IsHeld store.now old }
    ensures { IfOk result (λ b. b ≡ spec.goes_down (value_of store.now new) (value_of store.now old)) }
{
    match (look_at(store, new), look_at(store, old)) {
        (Look::Int(a), Look::Int(b)) => Ok(pp_eval::goes_down(&Value::Int(a), &Value::Int(b))),
        (Look::Tree(_), Look::Tree(_)) => store.is_below(alloc, new, old),
        _ => Ok(false),
    }
}
