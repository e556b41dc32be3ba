//! What a call does.

ghost use Rattle.std.specs.Prelude.{◌≡◌, OnOk, Some};
ghost use Rattle.pp_eval.specs.Invocation as spec;
ghost use Rattle.pp_eval.specs.Callees.{call_meaning};
ghost use Rattle.pp_eval.specs.Invocation.{admits, descends, enters};
ghost use Rattle.pp_eval.specs.Halts.{raised_halt};
ghost use Rattle.pp_eval.specs.Part.{Tells};

use crate::eval::{holds, value_of, values_of};
use crate::measure::is_below;
use crate::operators::failed;
use crate::outcome::{Halt, Stop};
use pp_list::at;
use pp_prog::{CheckId, Ctor, Expr, Function, FunctionId, Value, Values};
use std::alloc::Global;

/// What calls are made of: the program's constructors and functions, and how deep calls may still be nested.
#[derive(Clone, Copy)]
pub(crate) struct Callees<'a> {
    pub ctors: &'a [Ctor],
    pub functions: &'a [Function],
    pub fuel: u32,
}

/// The value of a call, from a frame with these measure values, at a site with these checks.
#[cycle(eval)]
pub(crate) fn call(
    alloc: Global,
    callees: Callees<'_>,
    frame: &Option<Values>,
    callee: FunctionId,
    pre: Option<CheckId>,
    measure: Option<CheckId>,
    args: Values,
) -> Result<Value, Halt>
    ensures { Tells result (call_meaning callees.entry frame.now callee pre measure args) }
{
    if callees.fuel == 0 {
        return Err(Halt::Stopped(Stop::Deep));
    }
    match at(callees.functions, callee.0 as usize) {
        None => Err(Halt::Stopped(Stop::Stuck)),
        Some(f) => {
            let inner = Callees {
                ctors: callees.ctors,
                functions: callees.functions,
                fuel: callees.fuel - 1,
            };
            enter(alloc, inner, f, frame, callee, pre, measure, args)
        }
    }
}

// A call of f, which has the number g: its precondition, its measure list, which is compared, and its body.
#[cycle(eval)]
fn enter(
    alloc: Global,
    callees: Callees<'_>,
    f: &Function,
    frame: &Option<Values>,
    g: FunctionId,
    pre: Option<CheckId>,
    measure: Option<CheckId>,
    args: Values,
) -> Result<Value, Halt>
    ensures { Tells result
        (enters (call_meaning callees.entry) callees.entry.ctors.now (Some f.now) frame.now g pre measure args) }
{
    let mut env = args;
    admit(alloc, callees, g, &f.pre, pre, &mut env)?;
    let new = match frame_of(alloc, callees, f.measure.as_slice(), &mut env) {
        Ok(new) => new,
        Err(halt) => return Err(raise(g, halt)),
    };
    descend(callees.ctors, measure, frame, &new)?;
    match value_of(alloc, callees, &new, &mut env, &f.body) {
        Ok(v) => Ok(v),
        Err(halt) => Err(raise(g, halt)),
    }
}

// The precondition of g is true; else the site's check fails.
#[cycle(eval)]
fn admit(
    alloc: Global,
    callees: Callees<'_>,
    g: FunctionId,
    pre: &Option<Expr>,
    check: Option<CheckId>,
    args: &mut Values,
) -> Result<(), Halt>
    ensures told { Tells result (admits (call_meaning callees.entry) g pre.now check args.old) }
    ensures kept { OnOk result (args.new ≡ args.old) }
{
    match holds(alloc, callees, &None, args, pre) {
        Ok(true) => Ok(()),
        Ok(false) => Ok(failed(check)?),
        Err(halt) => Err(raise(g, halt)),
    }
}

/// The measure values of a frame on these arguments, where a measure list is written.
#[cycle(eval)]
pub(crate) fn frame_of(
    alloc: Global,
    callees: Callees<'_>,
    measure: &[Expr],
    args: &mut Values,
) -> Result<Option<Values>, Halt>
    ensures told { Tells result (spec.frame_of (call_meaning callees.entry) measure.now args.old) }
    ensures kept { OnOk result (args.new ≡ args.old) }
{
    if measure.is_empty() {
        return Ok(None);
    }
    let values = values_of(alloc, callees, &None, args, measure)?;
    Ok(Some(values))
}

// The new measure values are below those of the calling frame, where both frames have values and the site a check.
fn descend(
    ctors: &[Ctor],
    check: Option<CheckId>,
    old: &Option<Values>,
    new: &Option<Values>,
) -> Result<(), Halt>
    ensures { Tells result (descends ctors.now check old.now new.now) }
{
    match (check, old, new) {
        (Some(c), Some(old), Some(new)) => {
            if is_below(ctors, new.as_slice(), old.as_slice()) {
                Ok(())
            } else {
                Err(Halt::Stopped(Stop::Fails(c)))
            }
        }
        _ => Ok(()),
    }
}

// How a halt inside a frame of g is seen from outside.
fn raise(g: FunctionId, halt: Halt) -> Halt
    ensures { result ≡ raised_halt g halt }
{
    match halt {
        Halt::Memory => Halt::Memory,
        Halt::Stopped(Stop::Fails(c)) => Halt::Stopped(Stop::Inner(g, c)),
        Halt::Stopped(Stop::Inner(h, c)) => Halt::Stopped(Stop::Inner(h, c)),
        Halt::Stopped(Stop::Deep) => Halt::Stopped(Stop::Deep),
        Halt::Stopped(Stop::Stuck) => Halt::Stopped(Stop::Stuck),
    }
}
