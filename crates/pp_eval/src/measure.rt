//! When the measure of a call is below that of its caller.

ghost use Rattle.std.specs.Prelude.{◌≡◌, slice_get};
ghost use Rattle.pp_prog.specs.declared.value.Value.TheViews.{out-Value};
ghost use Rattle.pp_eval.specs.Measure as spec;

use crate::equality::{are_equal, is_subtree};
use pp_list::at;
use pp_prog::{Ctor, CtorId, Value};

/// Whether the new measure values are below the old ones.
pub(crate) fn is_below(ctors: &[Ctor], new: &[Value], old: &[Value]) -> bool
    ensures { result ≡ spec.is_below ctors.now new.now old.now }
{
    of_one_shape(ctors, new, old) && falls(new, old)
}

fn of_one_shape(ctors: &[Ctor], new: &[Value], old: &[Value]) -> bool
    ensures { result ≡ spec.of_one_shape ctors.now new.now old.now }
{
    match new {
        [] => old.is_empty(),
        [x, xs @ ..] => match old {
            [] => false,
            [y, ys @ ..] => one_sort(ctors, x, y) && of_one_shape(ctors, xs, ys),
        },
    }
}

/// Whether both are numbers, both are truth values, or both are trees of one datatype. It takes no memory.
pub fn one_sort(ctors: &[Ctor], x: &Value, y: &Value) -> bool
    ensures { result ≡ spec.one_sort ctors.now (out-Value x.now) (out-Value y.now) }
{
    match (x, y) {
        (Value::Int(_), Value::Int(_)) => true,
        (Value::Bool(_), Value::Bool(_)) => true,
        (Value::Tree(c, _), Value::Tree(d, _)) => one_datatype(ctors, *c, *d),
        _ => false,
    }
}

fn one_datatype(ctors: &[Ctor], c: CtorId, d: CtorId) -> bool
    ensures { result ≡ spec.one_datatype (slice_get ctors.now c.0) (slice_get ctors.now d.0) }
{
    match at(ctors, c.0 as usize) {
        None => false,
        Some(c) => match at(ctors, d.0 as usize) {
            None => false,
            Some(d) => c.of.0 == d.of.0,
        },
    }
}

// Whether some component goes down, and all before it are equal.
fn falls(new: &[Value], old: &[Value]) -> bool
    ensures { result ≡ spec.falls new.now old.now }
{
    match new {
        [] => false,
        [x, xs @ ..] => match old {
            [] => false,
            [y, ys @ ..] => goes_down(x, y) || (are_equal(x, y) && falls(xs, ys)),
        },
    }
}

/// Whether the component of a measure goes down from the old value to the new one: a number that isn't negative and is
/// less, or a proper subtree, which is looked for by recursion on the height. It takes no memory.
pub fn goes_down(new: &Value, old: &Value) -> bool
    ensures { result ≡ spec.goes_down new.now old.now }
{
    match (new, old) {
        (Value::Int(a), Value::Int(b)) => 0 <= *a && *a < *b,
        (Value::Tree(_, _), Value::Tree(_, _)) => is_subtree(new, old),
        _ => false,
    }
}
