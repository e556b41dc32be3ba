//! The steps of calls: of those that are followed, of those that are left open, and of those from the own frame.

ghost use Rattle.std.specs.Prelude.{◌≡◌, ◌∷◌, [], ℕ, suc, IfOk, List, Option, Some, None, length};
ghost use Rattle.pp_steps.specs.Piece.{plain};
ghost use Rattle.pp_steps.specs.declared.step.Step.TheVariants as steps;
ghost use Rattle.pp_steps.specs.Frames.{admitting, descending, entering, falling, lower, measuring, shaped};
ghost use Rattle.pp_steps.specs.Guesses.{comparing, own_call};
ghost use Rattle.pp_compile.specs.Sites.{site_at, site_of};
ghost use Rattle.pp_compile.specs.Written.{IsFramed, IsMade};

use crate::NoMemory;
use crate::emit::{demand, emit, one, stop};
use crate::exprs::{asks, value_of, values_of};
use crate::open_calls::{leave, result_at};
use crate::work::{Ends, Framed, Work};
use pp_list::at;
use pp_prog::{BinaryOp, CheckId, Expr, Function, FunctionId, Sort};
use pp_steps::{Numbers, Step};
use std::alloc::Global;

/// How calls are compiled. They are followed, and may still be nested so deep; they are left open, and wait for so many
/// rounds; or they come from the own frame of a guess run.
#[derive(Clone, Copy)]
pub(crate) enum CallKind {
    Followed(u32),
    Left(u32),
    Own,
}

/// What calls are made of: the program's functions, and how calls are compiled.
#[derive(Clone, Copy)]
pub(crate) struct Calls<'a> {
    pub functions: &'a [Function],
    pub kind: CallKind,
}

/// What an expression is compiled at: how calls are compiled, the asked check, and the numbers of the measure values of
/// the frame, if it has any.
#[derive(Clone, Copy)]
pub(crate) struct Site<'a> {
    pub calls: Calls<'a>,
    pub asked: Option<CheckId>,
    pub frame: &'a Option<Numbers>,
}

/// The steps of a call with these checks, at a site.
#[cycle(compile)]
pub(crate) fn call(
    alloc: Global,
    site: Site<'_>,
    reach: u32,
    callee: FunctionId,
    pre: Option<CheckId>,
    measure: Option<CheckId>,
    args: Numbers,
    work: &mut Work,
) -> Result<Ends, NoMemory>
    ensures { IfOk result (λ r. IsMade work.old work.new
        (site_at site.entry (length work.old.steps) reach callee pre measure args) r) }
{
    let functions = site.calls.functions;
    match site.calls.kind {
        CallKind::Followed(0) => stop(work, result_at(functions, callee)),
        CallKind::Followed(fuel) => match at(functions, callee.0 as usize) {
            None => stop(work, Sort::Bool),
            Some(f) => {
                let kind = CallKind::Followed(fuel - 1);
                let inner = Site {
                    calls: Calls { functions, kind },
                    asked: site.asked,
                    frame: site.frame,
                };
                enter(alloc, inner, reach, f, pre, measure, args, work)
            }
        },
        CallKind::Left(wait) => leave(alloc, functions, wait, reach, callee, args, work),
        CallKind::Own => match at(functions, callee.0 as usize) {
            None => stop(work, Sort::Bool),
            Some(f) => enter_own(alloc, site, reach, callee, f, pre, measure, args, work),
        },
    }
}

// A call of f: its precondition, its measure list, which is compared, and its body.
#[cycle(compile)]
fn enter(
    alloc: Global,
    site: Site<'_>,
    reach: u32,
    f: &Function,
    pre: Option<CheckId>,
    measure: Option<CheckId>,
    args: Numbers,
    work: &mut Work,
) -> Result<Ends, NoMemory>
    ensures { IfOk result (λ r. IsMade work.old work.new
        (entering (site_of site.entry.calls.functions.now site.entry.calls.kind None) site.entry.asked
        site.entry.frame.now (Some f.now) (length work.old.steps) reach pre measure args) r) }
{
    let calls = site.calls;
    let mut env = args;
    let allowed = admit(alloc, calls, site.asked, &mut env, reach, &f.pre, pre, work)?;
    let new = frame_of(
        alloc,
        calls,
        None,
        &mut env,
        allowed.alive,
        f.measure.as_slice(),
        work,
    )?;
    let entered = descend(work, site.asked, measure, site.frame, &new.frame, new.alive)?;
    let inner = Site {
        calls,
        asked: None,
        frame: &new.frame,
    };
    value_of(alloc, inner, &mut env, entered.alive, &f.body, work)
}

// A call of f from the own frame of a guess run: its precondition, its measure list where it is looked at, and the
// call, which is left open.
#[cycle(compile)]
fn enter_own(
    alloc: Global,
    site: Site<'_>,
    reach: u32,
    callee: FunctionId,
    f: &Function,
    pre: Option<CheckId>,
    measure: Option<CheckId>,
    args: Numbers,
    work: &mut Work,
) -> Result<Ends, NoMemory>
    ensures { IfOk result (λ r. IsMade work.old work.new
        (own_call site.entry.calls.functions.now site.entry.asked site.entry.frame.now (Some f.now)
        (length work.old.steps) reach callee pre measure args) r) }
{
    let functions = site.calls.functions;
    let kind = CallKind::Left(1);
    let calls = Calls { functions, kind };
    let mut env = args;
    let allowed = admit(alloc, calls, site.asked, &mut env, reach, &f.pre, pre, work)?;
    let inner = Site {
        calls,
        asked: site.asked,
        frame: site.frame,
    };
    let entered = compare(
        alloc,
        inner,
        &mut env,
        allowed.alive,
        f.measure.as_slice(),
        measure,
        work,
    )?;
    leave(alloc, functions, 0, entered.alive, callee, env, work)
}

// The measure list of a called function, which is looked at where the site's measure check is the asked one.
#[cycle(compile)]
fn compare(
    alloc: Global,
    site: Site<'_>,
    args: &mut Numbers,
    reach: u32,
    measure: &[Expr],
    check: Option<CheckId>,
    work: &mut Work,
) -> Result<Ends, NoMemory>
    ensures made { IfOk result (λ r. IsMade work.old work.new
        (comparing site.entry.asked (site_of site.entry.calls.functions.now site.entry.calls.kind None None)
        site.entry.frame.now measure.now check (length work.old.steps) args.old reach) r) }
    ensures kept { IfOk result (λ _. args.new ≡ args.old) }
{
    if asks(site.asked, check) {
        let new = frame_of(alloc, site.calls, None, args, reach, measure, work)?;
        descend(work, site.asked, check, site.frame, &new.frame, new.alive)
    } else {
        Ok(Ends {
            out: reach,
            alive: reach,
        })
    }
}

// The precondition of a called function.
#[cycle(compile)]
fn admit(
    alloc: Global,
    calls: Calls<'_>,
    asked: Option<CheckId>,
    args: &mut Numbers,
    reach: u32,
    pre: &Option<Expr>,
    check: Option<CheckId>,
    work: &mut Work,
) -> Result<Ends, NoMemory>
    ensures made { IfOk result (λ r. IsMade work.old work.new
        (admitting asked (site_of calls.entry.functions.now calls.entry.kind None None) pre.now check
        (length work.old.steps) args.old reach) r) }
    ensures kept { IfOk result (λ _. args.new ≡ args.old) }
{
    match pre {
        None => Ok(Ends {
            out: reach,
            alive: reach,
        }),
        Some(pre) => {
            let site = Site {
                calls,
                asked: None,
                frame: &None,
            };
            let x = value_of(alloc, site, args, reach, pre, work)?;
            demand(work, asks(asked, check), x.alive, x.out)
        }
    }
}

/// The numbers of the measure values of a frame, where a measure list is written.
#[cycle(compile)]
pub(crate) fn frame_of(
    alloc: Global,
    calls: Calls<'_>,
    asked: Option<CheckId>,
    args: &mut Numbers,
    reach: u32,
    measure: &[Expr],
    work: &mut Work,
) -> Result<Framed, NoMemory>
    ensures made { IfOk result (λ r. IsFramed work.old work.new
        (measuring asked (site_of calls.entry.functions.now calls.entry.kind asked None) measure.now
        (length work.old.steps) args.old reach) r) }
    ensures kept { IfOk result (λ _. args.new ≡ args.old) }
{
    if measure.is_empty() {
        return Ok(Framed {
            frame: None,
            alive: reach,
        });
    }
    let site = Site {
        calls,
        asked,
        frame: &None,
    };
    let xs = values_of(alloc, site, args, reach, measure, work)?;
    Ok(Framed {
        frame: Some(xs.out),
        alive: xs.alive,
    })
}

// The new measure values are below those of the calling frame, where both frames have values and the site a check.
fn descend(
    work: &mut Work,
    asked: Option<CheckId>,
    check: Option<CheckId>,
    old: &Option<Numbers>,
    new: &Option<Numbers>,
    alive: u32,
) -> Result<Ends, NoMemory>
    ensures { IfOk result (λ r. IsMade work.old work.new
        (descending asked check old.now new.now (length work.old.steps) alive) r) }
{
    match (check, old, new) {
        (Some(c), Some(old), Some(new)) => {
            let below = lower(work, new.as_slice(), old.as_slice(), alive)?;
            demand(work, asks(asked, Some(c)), below.alive, below.out)
        }
        _ => Ok(Ends { out: alive, alive }),
    }
}

// Whether the new measure values are below the old ones.
fn lower(work: &mut Work, new: &[u32], old: &[u32], alive: u32) -> Result<Ends, NoMemory>
    ensures { IfOk result (λ r. IsMade work.old work.new (lower new.now old.now (length work.old.steps) alive) r) }
{
    let falls = fall(work, new, old, alive)?;
    shape(work, new, old, falls.out, alive)
}

// Whether some component goes down, and all before it are equal.
fn fall(work: &mut Work, new: &[u32], old: &[u32], alive: u32) -> Result<Ends, NoMemory>
    ensures { IfOk result (λ r. IsMade work.old work.new (falling new.now old.now (length work.old.steps) alive) r) }
{
    match (new.split_first(), old.split_first()) {
        (Some((x, xs)), Some((y, ys))) => {
            match xs.split_first() {
                None => one(work, Step::GoesDown(*x, *y), alive),
                Some(_) => {
                    let down = emit(work, Step::GoesDown(*x, *y))?;
                    let same = emit(work, Step::Binary(BinaryOp::Equal, *x, *y))?;
                    let rest = fall(work, xs, ys, alive)?;
                    later(work, down, same, rest.out, alive)
                }
            }
        }
        _ => one(work, Step::Bool(false), alive),
    }
}

// The component goes down, or it is the same and a later one does.
fn later(work: &mut Work, down: u32, same: u32, rest: u32, alive: u32) -> Result<Ends, NoMemory>
    ensures { IfOk result (λ r. IsMade work.old work.new
        (plain (steps.Both same rest ∷ steps.Choose down down (length work.old.steps) ∷ [])
        (suc (length work.old.steps)) alive) r) }
{
    let both = emit(work, Step::Both(same, rest))?;
    one(work, Step::Choose(down, down, both), alive)
}

// Whether the number is true, and the values of the lists are of one sort at each place.
fn shape(work: &mut Work, new: &[u32], old: &[u32], test: u32, alive: u32) -> Result<Ends, NoMemory>
    ensures { IfOk result (λ r. IsMade work.old work.new
        (shaped new.now old.now (length work.old.steps) test alive) r) }
{
    match (new.split_first(), old.split_first()) {
        (None, None) => Ok(Ends { out: test, alive }),
        (Some((x, xs)), Some((y, ys))) => {
            let alike = emit(work, Step::IsAlike(*x, *y))?;
            let both = emit(work, Step::Both(test, alike))?;
            shape(work, xs, ys, both, alive)
        }
        _ => one(work, Step::Bool(false), alive),
    }
}
