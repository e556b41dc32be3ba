//! A run of a function.

ghost use Rattle.std.specs.Prelude.{◌≡◌, ◌<◌, ◌≤◌, IfOk, length, slice_get};
ghost use Rattle.pp_limits.specs.declared.TheConstants.{MOST_NESTED};
ghost use Rattle.pp_eval.specs.declared.outcome.Outcome.{Outcome};
ghost use Rattle.pp_eval.specs.Callees.{call_meaning};
ghost use Rattle.pp_eval.specs.Part.{Part, Tells};
ghost use Rattle.pp_eval.specs.Runs as spec;
ghost use Rattle.pp_eval.specs.Runs.{AreArguments, outcome, run_in};

use crate::NoMemory;
use crate::eval::{holds, value_of};
use crate::invocation::{Callees, frame_of};
use crate::operators::truth_of;
use crate::outcome::{Halt, Outcome, Stop};
use pp_list::Items;
use pp_prog::{CheckId, Expr, Function, FunctionId, Program, Value, Values};
use std::alloc::Global;

/// The outcome of the run of `f` on these arguments, which have the parameters' sorts, with this fuel, which is at most
/// 100: the precondition, the measure list, the body and the postcondition. The only error is want of memory.
pub fn run(
    alloc: Global,
    program: &Program,
    f: FunctionId,
    args: &[Value],
    fuel: u32,
) -> Result<Outcome, NoMemory>
    requires function { f.0 < length program.now.functions }
    requires arguments { AreArguments program.now.types.ctors (slice_get program.now.functions f.0) args.now }
    requires fuel { fuel ≤ MOST_NESTED }
    ensures { IfOk result (λ outcome. outcome ≡ run_in program.now f.0 args.now fuel) }
{
    let callees = Callees {
        ctors: program.types().ctors.as_slice(),
        functions: program.functions.as_slice(),
        fuel,
    };
    ended(run_with(alloc, callees, program.function(f), args))
}

/// The outcome of a run that came to this.
pub(crate) fn ended(run: Result<Outcome, Halt>) -> Result<Outcome, NoMemory>
    ensures { (part : Part Outcome) → Tells run part → IfOk result (λ o. o ≡ outcome part) }
{
    match run {
        Ok(outcome) => Ok(outcome),
        Err(Halt::Memory) => Err(NoMemory),
        Err(Halt::Stopped(Stop::Fails(c))) => Ok(Outcome::Fails(c)),
        Err(Halt::Stopped(Stop::Inner(g, c))) => Ok(Outcome::Inner(g, c)),
        Err(Halt::Stopped(Stop::Deep)) => Ok(Outcome::Deep),
        Err(Halt::Stopped(Stop::Stuck)) => Ok(Outcome::Deep),
    }
}

/// The run of f, where these are called.
pub(crate) fn run_with(
    alloc: Global,
    callees: Callees<'_>,
    f: &Function,
    args: &[Value],
) -> Result<Outcome, Halt>
    ensures { Tells result (spec.run_with (call_meaning callees.entry) f.now args.now) }
{
    let mut env = copies(alloc, args)?;
    if holds(alloc, callees, &None, &mut env, &f.pre)? {
        start(alloc, callees, f, env)
    } else {
        Ok(Outcome::Outside)
    }
}

// The measure list, the body and the postcondition, where the precondition is true.
fn start(alloc: Global, callees: Callees<'_>, f: &Function, args: Values) -> Result<Outcome, Halt>
    ensures { Tells result (spec.started (call_meaning callees.entry) f.now args) }
{
    let mut env = args;
    let frame = frame_of(alloc, callees, f.measure.as_slice(), &mut env)?;
    let v = value_of(alloc, callees, &frame, &mut env, &f.body)?;
    finish(alloc, callees, &f.post, &frame, env, v)
}

// The postcondition, of the arguments and the result.
fn finish(
    alloc: Global,
    callees: Callees<'_>,
    post: &Option<(CheckId, Expr)>,
    frame: &Option<Values>,
    args: Values,
    v: Value,
) -> Result<Outcome, Halt>
    ensures { Tells result (spec.finished (call_meaning callees.entry) post.now frame.now args v) }
{
    match post {
        None => Ok(Outcome::Done(v)),
        Some((check, claim)) => {
            let mut env = args;
            env.push(v.copy(alloc)?)?;
            let p = value_of(alloc, callees, frame, &mut env, claim)?;
            if truth_of(&p)? {
                Ok(Outcome::Done(v))
            } else {
                Err(Halt::Stopped(Stop::Fails(*check)))
            }
        }
    }
}

fn copies(alloc: Global, values: &[Value]) -> Result<Values, NoMemory>
    ensures { IfOk result (λ copies. copies ≡ values.now) }
{
    let mut copies = Items::new(alloc);
    for v in values {
        copies.push(v.copy(alloc)?)?;
    }
    Ok(copies)
}
