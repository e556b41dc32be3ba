//! Whether a check's function meets no datatype, as far as the functions that it calls tell by their parameters and
//! results. No clause depends on it: it tells where cases are tried before the solver.

ghost use Rattle.std.specs.Prelude.{◌<◌, length};

use pp_checks::Plan;
use pp_prog::{CheckId, Function, FunctionId, Program, Sort};

/// Whether no function of the cone of the check's function has a parameter or a result of a datatype.
pub(crate) fn has_words_alone(program: &Program, plan: &Plan, check: CheckId) -> bool
    requires { check.0 < length program.now.checks }
{
    let f = program.checks()[check.0 as usize].function;
    for g in 0..program.function_count() {
        let g = FunctionId(g);
        if plan.in_cone(f, g) && !is_over_words(program.function(g)) {
            return false;
        }
    }
    true
}

/// Whether the function's parameters and its result are numbers and truth values.
fn is_over_words(f: &Function) -> bool {
    for param in f.params.as_slice() {
        if is_datatype(param.sort) {
            return false;
        }
    }
    !is_datatype(f.result)
}

/// Whether the sort is a datatype.
fn is_datatype(sort: Sort) -> bool {
    matches!(sort, Sort::Tree(_))
}
