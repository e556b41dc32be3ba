//! Calls that are left open.

ghost use Rattle.std.specs.Prelude.{◌≡◌, IfOk, None, length, slice_get};
ghost use Rattle.pp_prog.specs.Sorts.{param_sorts};
ghost use Rattle.pp_steps.specs.Frames as frames;
ghost use Rattle.pp_steps.specs.Guesses as spec;
ghost use Rattle.pp_compile.specs.Written.{IsMade};

use crate::NoMemory;
use crate::emit::emit;
use crate::work::{Ends, Work};
use pp_list::{Items, at};
use pp_prog::{Function, FunctionId, Param, Sort};
use pp_steps::{Numbers, OpenCall, SortList, Step};
use std::alloc::Global;

/// A call that is left open: whether it has an answer, and which. It waits for so many rounds.
pub(crate) fn leave(
    alloc: Global,
    functions: &[Function],
    wait: u32,
    reach: u32,
    callee: FunctionId,
    args: Numbers,
    work: &mut Work,
) -> Result<Ends, NoMemory>
    ensures { IfOk result (λ r. IsMade work.old work.new
        (spec.asking functions.now wait (length work.old.steps) reach callee None None args) r) }
{
    let same = Items::from_slice(alloc, args.as_slice())?;
    let asked = open_call(alloc, functions, wait, reach, callee, same)?;
    let answered = open_call(alloc, functions, wait, reach, callee, args)?;
    let has = emit(work, Step::HasAnswer(asked))?;
    let out = emit(work, Step::Answer(answered))?;
    let alive = emit(work, Step::Both(reach, has))?;
    Ok(Ends { out, alive })
}

// The call of the function with these arguments.
fn open_call(
    alloc: Global,
    functions: &[Function],
    wait: u32,
    reach: u32,
    callee: FunctionId,
    args: Numbers,
) -> Result<OpenCall, NoMemory>
    ensures { IfOk result (λ c. c ≡ spec.open_call functions.now wait reach callee args) }
{
    let params = params_at(alloc, functions, callee)?;
    Ok(OpenCall {
        callee,
        wait,
        reach,
        params,
        result: result_at(functions, callee),
        args,
    })
}

// The sorts of a function's parameters; of one that isn't there, none.
fn params_at(alloc: Global, functions: &[Function], f: FunctionId) -> Result<SortList, NoMemory>
    ensures { IfOk result (λ r. r ≡ spec.params_of (slice_get functions.now f.0)) }
{
    match at(functions, f.0 as usize) {
        None => Ok(Items::new(alloc)),
        Some(f) => sorts_of(alloc, f.params.as_slice()),
    }
}

// The sorts of parameters.
fn sorts_of(alloc: Global, params: &[Param]) -> Result<SortList, NoMemory>
    ensures { IfOk result (λ r. r ≡ param_sorts params.now) }
{
    let mut sorts = Items::new(alloc);
    for param in params {
        sorts.push(param.sort)?;
    }
    Ok(sorts)
}

/// The sort of a function's result; that of one that isn't there doesn't matter.
pub(crate) fn result_at(functions: &[Function], f: FunctionId) -> Sort
    ensures { result ≡ frames.result_of (slice_get functions.now f.0) }
{
    match at(functions, f.0 as usize) {
        None => Sort::Bool,
        Some(f) => f.result,
    }
}
