//! The steps of a guess run whose calls are unfolded on demand, one move after another.

ghost use Rattle.std.specs.Prelude.{◌≡◌, ◌<◌, ◌^◌, ◌-◌, IfOk, None, Some, length, slice_get};
ghost use Rattle.pp_demand_steps.specs.Moves as spec;
ghost use Rattle.pp_demand_steps.specs.Moves.{bodied_of, move_steps, posted_of};
ghost use Rattle.pp_compile.specs.Guessed.{guess_of, move_of, stands};
ghost use Rattle.pp_compile.specs.Written.{IsMade};

use crate::NoMemory;
use crate::agree::imply;
use crate::calls::{CallKind, Calls, Site};
use crate::emit::{demand, emit, one};
use crate::exprs::value_of;
use crate::guess::hold;
use crate::run::whole_run;
use crate::standing::StandingCall;
use crate::work::{Ends, Guess, Work};
use pp_list::{Items, at};
use pp_prog::{BinaryOp, CheckId, Function};
use pp_steps::Step;
use std::alloc::Global;

/// What is unfolded of a call: its body, or its postcondition.
#[derive(Clone, Copy, PartialEq, Eq, Debug)]
pub enum Unfolding {
    Body,
    Post,
}

/// The own frame of the guess run of a function for the check, whose calls are all left open. The only error is want of
/// memory, which is also more than 2^32 - 1 steps.
pub fn start_alone(
    alloc: Global,
    functions: &[Function],
    f: &Function,
    check: CheckId,
) -> Result<Guess, NoMemory>
    ensures { IfOk result (λ r. guess_of r ≡ spec.started_alone functions.now f.now check) }
{
    let kind = CallKind::Own;
    let guess = whole_run(alloc, Calls { functions, kind }, f, check)?;
    Ok(guess)
}

/// The steps of one move more: behind those that stand, what holds of the call's body or of its postcondition, which is
/// supposed. The call waits less than 2^32 - 1 rounds; it is to be one of those that stand in the steps. The only error
/// is want of memory, which is also more than 2^32 - 1 steps; then no steps are left.
pub fn moved(
    alloc: Global,
    functions: &[Function],
    part: Unfolding,
    call: &StandingCall,
    guess: Guess,
) -> Result<Guess, NoMemory>
    requires { call.now.call.wait < 2 ^ 32 - 1 }
    ensures { IfOk result (λ r. guess_of r ≡
        spec.moved functions.now (guess_of guess) (move_of part (stands call.now))) }
{
    let Guess {
        steps,
        arguments,
        fails,
        true_one,
        mut supposed,
    } = guess;
    let mut work = Work {
        steps,
        fails: Items::new(alloc),
    };
    let holds = unfold(alloc, functions, part, call, &mut work)?;
    supposed.push(holds.out)?;
    Ok(Guess {
        steps: work.steps,
        arguments,
        fails,
        true_one,
        supposed,
    })
}

// What holds of the call's body or of its postcondition.
fn unfold(
    alloc: Global,
    functions: &[Function],
    part: Unfolding,
    c: &StandingCall,
    work: &mut Work,
) -> Result<Ends, NoMemory>
    requires { c.now.call.wait < 2 ^ 32 - 1 }
    ensures { IfOk result (λ r. IsMade work.old work.new
        (move_steps functions.now (length work.old.steps) (move_of part (stands c.now))) r) }
{
    match part {
        Unfolding::Body => unfold_body(alloc, functions, c, work),
        Unfolding::Post => unfold_post(alloc, functions, c, work),
    }
}

// Where the call is reached and has an answer, the body has a value, which is the answer.
fn unfold_body(
    alloc: Global,
    functions: &[Function],
    c: &StandingCall,
    work: &mut Work,
) -> Result<Ends, NoMemory>
    requires { c.now.call.wait < 2 ^ 32 - 1 }
    ensures { IfOk result (λ r. IsMade work.old work.new
        (bodied_of functions.now (slice_get functions.now c.now.call.callee.0)
        (length work.old.steps) (stands c.now)) r) }
{
    match at(functions, c.call.callee.0 as usize) {
        None => {
            let done = emit(work, Step::Both(c.call.reach, c.has))?;
            one(work, Step::Not(done), done)
        }
        Some(f) => tie_body(alloc, functions, f, c, work),
    }
}

// Where the call is reached and has an answer, the postcondition is true of the arguments and the answer.
fn unfold_post(
    alloc: Global,
    functions: &[Function],
    c: &StandingCall,
    work: &mut Work,
) -> Result<Ends, NoMemory>
    requires { c.now.call.wait < 2 ^ 32 - 1 }
    ensures { IfOk result (λ r. IsMade work.old work.new
        (posted_of functions.now (slice_get functions.now c.now.call.callee.0)
        (length work.old.steps) (stands c.now)) r) }
{
    match at(functions, c.call.callee.0 as usize) {
        None => {
            let done = emit(work, Step::Both(c.call.reach, c.has))?;
            one(work, Step::Not(done), done)
        }
        Some(f) => tie_post(alloc, functions, f, c, work),
    }
}

// The body of f.
fn tie_body(
    alloc: Global,
    functions: &[Function],
    f: &Function,
    c: &StandingCall,
    work: &mut Work,
) -> Result<Ends, NoMemory>
    requires { c.now.call.wait < 2 ^ 32 - 1 }
    ensures { IfOk result (λ r. IsMade work.old work.new
        (bodied_of functions.now (Some f.now) (length work.old.steps) (stands c.now)) r) }
{
    let kind = CallKind::Left(c.call.wait + 1);
    let calls = Calls { functions, kind };
    let mut values = Items::from_slice(alloc, c.call.args.as_slice())?;
    let done = emit(work, Step::Both(c.call.reach, c.has))?;
    let site = Site {
        calls,
        asked: None,
        frame: &None,
    };
    let body = value_of(alloc, site, &mut values, done, &f.body, work)?;
    let same = one(
        work,
        Step::Binary(BinaryOp::Equal, body.out, c.result),
        body.alive,
    )?;
    let agreed = demand(work, false, same.alive, same.out)?;
    imply(work, done, agreed.alive)
}

// The postcondition of f.
fn tie_post(
    alloc: Global,
    functions: &[Function],
    f: &Function,
    c: &StandingCall,
    work: &mut Work,
) -> Result<Ends, NoMemory>
    requires { c.now.call.wait < 2 ^ 32 - 1 }
    ensures { IfOk result (λ r. IsMade work.old work.new
        (posted_of functions.now (Some f.now) (length work.old.steps) (stands c.now)) r) }
{
    let kind = CallKind::Left(c.call.wait + 1);
    let calls = Calls { functions, kind };
    let mut values = Items::from_slice(alloc, c.call.args.as_slice())?;
    let done = emit(work, Step::Both(c.call.reach, c.has))?;
    values.push(c.result)?;
    let ends = hold(alloc, calls, &f.post, &mut values, done, work)?;
    imply(work, done, ends.alive)
}
