//! Tests of values: their sorts and their heights.

ghost use Rattle.std.specs.Prelude.{◌≡◌, ◌<◌, ◌≤◌, ◌&&◌, IsTrue, length, slice_get};
ghost use Rattle.pp_prog.specs.Sorts as spec;
ghost use Rattle.pp_prog.specs.Values.{height};
ghost use Rattle.pp_prog.specs.declared.sort.Sort.TheVariants.{Int, Bool, Tree};
ghost use Rattle.pp_eval.specs.Runs.{AreArguments};
ghost use Rattle.pp_sound.specs.Counterexample.{AreLow};

use pp_list::at;
use pp_prog::{Ctor, DataId, FunctionId, Param, Program, Sort, Value};

/// Whether each value has at most this height.
pub(crate) fn are_low(values: &[Value], depth: u32) -> bool
    ensures { IsTrue result → AreLow depth values.now }
{
    values.iter().all(|value| is_low(value, depth))
}

/// Whether the value has at most this height.
fn is_low(value: &Value, depth: u32) -> bool
    ensures { IsTrue result → height value.now ≤ depth }
{
    value.height() <= u64::from(depth)
}

/// Whether the values have the sorts of the function's parameters: none but such is said to. It takes no memory.
pub fn are_arguments(program: &Program, function: FunctionId, values: &[Value]) -> bool
    requires { function.0 < length program.now.functions }
    ensures { IsTrue result → AreArguments program.now.types.ctors (slice_get program.now.functions function.0)
        values.now }
{
    let params = program.function(function).params.as_slice();
    have_params(program.types().ctors.as_slice(), values, params)
}

/// Whether each value has the sort of the parameter at its place, and none is left over.
fn have_params(ctors: &[Ctor], values: &[Value], params: &[Param]) -> bool
    ensures { IsTrue result → IsTrue (spec.have_sorts ctors.now values.now (spec.param_sorts params.now)) }
{
    if values.len() != params.len() {
        return false;
    }
    for place in 0..values.len() {
        if !has_sort(ctors, &values[place], params[place].sort) {
            return false;
        }
    }
    true
}

/// Whether each value has the sort at its place, and none is left over.
#[cycle(have)]
fn have_sorts(ctors: &[Ctor], values: &[Value], sorts: &[Sort]) -> bool
    ensures { IsTrue result → IsTrue (spec.have_sorts ctors.now values.now sorts.now) }
{
    if values.len() != sorts.len() {
        return false;
    }
    for place in 0..values.len() {
        if !has_sort(ctors, &values[place], sorts[place]) {
            return false;
        }
    }
    true
}

/// Whether the value has the sort.
#[cycle(have)]
fn has_sort(ctors: &[Ctor], value: &Value, sort: Sort) -> bool
    ensures { IsTrue result → IsTrue (spec.has_sort ctors.now value.now sort) }
{
    match value {
        Value::Int(n) => is_int(*n, sort),
        Value::Bool(_) => is_bool(sort),
        Value::Tree(ctor, fields) => match at(ctors, ctor.0 as usize) {
            Some(entry) => {
                is_tree(entry.of, sort)
                    && have_sorts(ctors, fields.as_slice(), entry.fields.as_slice())
            }
            None => false,
        },
    }
}

/// Whether the sort is that of numbers.
fn is_int(n: i32, sort: Sort) -> bool
    ensures { IsTrue result → IsTrue (spec.same_sort Int sort && spec.is_int n) }
{
    let _number = n;
    match sort {
        Sort::Int => true,
        Sort::Bool | Sort::Tree(_) => false,
    }
}

/// Whether the sort is that of truth values.
fn is_bool(sort: Sort) -> bool
    ensures { result ≡ spec.same_sort Bool sort }
{
    match sort {
        Sort::Bool => true,
        Sort::Int | Sort::Tree(_) => false,
    }
}

/// Whether the sort is that of trees of the datatype.
fn is_tree(of: DataId, sort: Sort) -> bool
    ensures { result ≡ spec.same_sort (Tree of) sort }
{
    match sort {
        Sort::Tree(other) => of.0 == other.0,
        Sort::Int | Sort::Bool => false,
    }
}
