//! The steps of a run.

ghost use Rattle.std.specs.Prelude.{◌≡◌, ℕ, IfOk, List, [], ◌++◌, Some, length};
ghost use Rattle.pp_prog.specs.Sorts.{param_sorts};
ghost use Rattle.pp_steps.specs.Compile.{compile};
ghost use Rattle.pp_steps.specs.Frames.{allowing, any_of, arguments, finishing, run_steps, running, starting};
ghost use Rattle.pp_compile.specs.Guessed.{guess_of, whole_run};
ghost use Rattle.pp_compile.specs.Sites.{site_at, site_of};
ghost use Rattle.pp_compile.specs.Written.{AreMade, IsMade, IsRunOf, IsWritten};

use crate::NoMemory;
use crate::calls::{CallKind, Calls, Site, frame_of};
use crate::emit::{demand, emit};
use crate::exprs::{asks, value_of};
use crate::work::{Ends, Guess, Lists, Run, Work};
use pp_list::Items;
use pp_prog::{CheckId, Expr, Function, Param};
use pp_steps::{Numbers, Step};
use std::alloc::Global;

/// The steps of the run of a function with this fuel, of which the check is asked. The only error is want of memory,
/// which is also more than 2^32 - 1 steps.
pub fn compile_run(
    alloc: Global,
    functions: &[Function],
    f: &Function,
    check: CheckId,
    fuel: u32,
) -> Result<Run, NoMemory>
    ensures { IfOk result (λ r. IsRunOf (run_steps functions.now f.now check fuel) r) }
{
    let kind = CallKind::Followed(fuel);
    let run = whole_run(alloc, Calls { functions, kind }, f, check)?;
    Ok(Run {
        steps: run.steps,
        arguments: run.arguments,
        fails: run.fails,
    })
}

/// The steps of a run whose calls are compiled so, and nothing is supposed.
pub(crate) fn whole_run(
    alloc: Global,
    calls: Calls<'_>,
    f: &Function,
    check: CheckId,
) -> Result<Guess, NoMemory>
    ensures { IfOk result (λ r. guess_of r ≡
        whole_run (site_of calls.entry.functions.now calls.entry.kind (Some check)) check f.now) }
{
    let mut work = Work {
        steps: Items::new(alloc),
        fails: Items::new(alloc),
    };
    let mut args = open(alloc, f.params.as_slice(), &mut work)?;
    run(
        alloc,
        calls,
        Some(check),
        f,
        &mut args.out,
        args.alive,
        &mut work,
    )?;
    let Work { steps, fails } = work;
    let mut rest = Work {
        steps,
        fails: Items::new(alloc),
    };
    let found = any_of(&mut rest, fails.as_slice())?;
    Ok(Guess {
        steps: rest.steps,
        arguments: args.out,
        fails: found,
        true_one: args.alive,
        supposed: Items::new(alloc),
    })
}

// The arguments, and a number that is true.
fn open(alloc: Global, params: &[Param], work: &mut Work) -> Result<Lists, NoMemory>
    requires { work.old.steps ≡ [] }
    ensures { IfOk result (λ r. AreMade work.old work.new (arguments (param_sorts params.now)) r) }
{
    let mut out = Items::new(alloc);
    for param in params {
        let argument = emit(work, Step::Open(param.sort))?;
        out.push(argument)?;
    }
    let alive = emit(work, Step::Bool(true))?;
    Ok(Lists { out, alive })
}

// The precondition, and where it is true the rest of the run.
fn run(
    alloc: Global,
    calls: Calls<'_>,
    asked: Option<CheckId>,
    f: &Function,
    args: &mut Numbers,
    reach: u32,
    work: &mut Work,
) -> Result<Ends, NoMemory>
    ensures made { IfOk result (λ r. IsMade work.old work.new
        (running (site_of calls.entry.functions.now calls.entry.kind asked) asked f.now
        (length work.old.steps) args.old reach) r) }
    ensures kept { IfOk result (λ _. args.new ≡ args.old) }
{
    let allowed = allow(alloc, calls, asked, args, reach, &f.pre, work)?;
    start(alloc, calls, asked, f, args, allowed.alive, work)
}

// The precondition of the run itself.
fn allow(
    alloc: Global,
    calls: Calls<'_>,
    asked: Option<CheckId>,
    args: &mut Numbers,
    reach: u32,
    pre: &Option<Expr>,
    work: &mut Work,
) -> Result<Ends, NoMemory>
    ensures made { IfOk result (λ r. IsMade work.old work.new
        (allowing asked (site_of calls.entry.functions.now calls.entry.kind asked None) pre.now
        (length work.old.steps) args.old reach) r) }
    ensures kept { IfOk result (λ _. args.new ≡ args.old) }
{
    match pre {
        None => Ok(Ends {
            out: reach,
            alive: reach,
        }),
        Some(pre) => {
            let site = Site {
                calls,
                asked,
                frame: &None,
            };
            let x = value_of(alloc, site, args, reach, pre, work)?;
            demand(work, false, x.alive, x.out)
        }
    }
}

// The measure list, the body and the postcondition of the run.
fn start(
    alloc: Global,
    calls: Calls<'_>,
    asked: Option<CheckId>,
    f: &Function,
    args: &mut Numbers,
    reach: u32,
    work: &mut Work,
) -> Result<Ends, NoMemory>
    ensures made { IfOk result (λ r. IsMade work.old work.new
        (starting (site_of calls.entry.functions.now calls.entry.kind asked) asked f.now
        (length work.old.steps) args.old reach) r) }
    ensures kept { IfOk result (λ _. args.new ≡ args.old) }
{
    let new = frame_of(alloc, calls, asked, args, reach, f.measure.as_slice(), work)?;
    let site = Site {
        calls,
        asked,
        frame: &new.frame,
    };
    let x = value_of(alloc, site, args, new.alive, &f.body, work)?;
    args.push(x.out)?;
    let end = finish(alloc, site, &f.post, args, x.alive, work)?;
    let _ = args.pop();
    Ok(end)
}

// The postcondition, of the arguments and the result.
fn finish(
    alloc: Global,
    site: Site<'_>,
    post: &Option<(CheckId, Expr)>,
    values: &mut Numbers,
    reach: u32,
    work: &mut Work,
) -> Result<Ends, NoMemory>
    ensures made { IfOk result (λ r. IsMade work.old work.new
        (finishing site.entry.asked (site_at site.entry) post.now (length work.old.steps) values.old reach) r) }
    ensures kept { IfOk result (λ _. values.new ≡ values.old) }
{
    match post {
        None => Ok(Ends {
            out: reach,
            alive: reach,
        }),
        Some((check, post)) => {
            let x = value_of(alloc, site, values, reach, post, work)?;
            demand(work, asks(site.asked, Some(*check)), x.alive, x.out)
        }
    }
}

// Whether one of the numbers is true.
fn any_of(work: &mut Work, fails: &[u32]) -> Result<u32, NoMemory>
    ensures written { IfOk result (λ _. IsWritten work.old work.new (any_of fails.now (length work.old.steps) 0)) }
    ensures number { IfOk result (λ n. n ≡ (any_of fails.now (length work.old.steps) 0).out) }
{
    match fails.split_first() {
        None => emit(work, Step::Bool(false)),
        Some((first, more)) => match more.split_first() {
            None => Ok(*first),
            Some(_) => {
                let some = any_of(work, more)?;
                emit(work, Step::Choose(*first, *first, some))
            }
        },
    }
}
