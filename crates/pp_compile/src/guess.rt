//! The steps of a guess run, round after round.

ghost use Rattle.std.specs.Prelude.{◌≡◌, ◌<◌, ◌^◌, ◌-◌, IfOk, None, Some, length, map, nat_eq};
ghost use Rattle.pp_steps.specs.Guesses as spec;
ghost use Rattle.pp_steps.specs.Guesses.{all_unfolded, guess_steps, holding, one_unfolded, unfolded_call, unfolded_of};
ghost use Rattle.pp_steps.specs.Guesses.{with_agreement};
ghost use Rattle.pp_compile.specs.Guessed.{IsAdded, guess_of, stands};
ghost use Rattle.pp_compile.specs.Sites.{site_of};
ghost use Rattle.pp_compile.specs.Written.{IsMade};

use crate::NoMemory;
use crate::agree::{agree_all, imply};
use crate::calls::{CallKind, Calls, Site};
use crate::emit::{demand, emit, one};
use crate::exprs::value_of;
use crate::run::whole_run;
use crate::standing::{StandingCall, calls_at};
use crate::work::{Ends, Guess, Work};
use pp_list::{Items, at};
use pp_prog::{BinaryOp, CheckId, Expr, Function};
use pp_steps::{Numbers, Step};
use std::alloc::Global;

/// The steps of the guess run of a function for the check, after so many rounds. The only error is want of memory,
/// which is also more than 2^32 - 1 steps.
pub fn compile_guess(
    alloc: Global,
    functions: &[Function],
    f: &Function,
    check: CheckId,
    rounds: u32,
) -> Result<Guess, NoMemory>
    ensures { IfOk result (λ r. guess_of r ≡ guess_steps functions.now f.now check rounds) }
{
    let mut guess = start(alloc, functions, f, check)?;
    for round in 0..rounds {
        guess = grown(alloc, functions, round, guess)?;
    }
    Ok(guess)
}

/// The steps of one round more: behind those that stand, what holds of the calls that wait for `round` rounds, and the
/// agreement of the new calls. `round` is less than 2^32 - 1, and the number of rounds so far where these are the steps
/// of a guess run. The only error is want of memory, which is also more than 2^32 - 1 steps; then no steps are left.
pub fn grown(
    alloc: Global,
    functions: &[Function],
    round: u32,
    guess: Guess,
) -> Result<Guess, NoMemory>
    requires { round < 2 ^ 32 - 1 }
    ensures { IfOk result (λ r. guess_of r ≡ spec.grown functions.now round (guess_of guess)) }
{
    let Guess {
        steps,
        arguments,
        fails,
        true_one,
        mut supposed,
    } = guess;
    let end = steps.len();
    let calls = calls_at(alloc, steps.as_slice(), 0)?;
    let mut work = Work {
        steps,
        fails: Items::new(alloc),
    };
    unfold_all(
        alloc,
        functions,
        round,
        calls.from.as_slice(),
        &mut supposed,
        &mut work,
    )?;
    agreed(
        alloc,
        end,
        Guess {
            steps: work.steps,
            arguments,
            fails,
            true_one,
            supposed,
        },
    )
}

// Round 0.
fn start(
    alloc: Global,
    functions: &[Function],
    f: &Function,
    check: CheckId,
) -> Result<Guess, NoMemory>
    ensures { IfOk result (λ r. guess_of r ≡ spec.started_guess functions.now f.now check) }
{
    let kind = CallKind::Own;
    let guess = whole_run(alloc, Calls { functions, kind }, f, check)?;
    agreed(alloc, 0, guess)
}

// With the agreement of the calls from this number on, with all calls.
fn agreed(alloc: Global, from: usize, guess: Guess) -> Result<Guess, NoMemory>
    ensures { IfOk result (λ r. guess_of r ≡ with_agreement from (guess_of guess)) }
{
    let Guess {
        steps,
        arguments,
        fails,
        true_one,
        mut supposed,
    } = guess;
    let calls = calls_at(alloc, steps.as_slice(), from)?;
    let mut work = Work {
        steps,
        fails: Items::new(alloc),
    };
    agree_all(
        &mut work,
        &mut supposed,
        calls.before.as_slice(),
        calls.from.as_slice(),
        true_one,
    )?;
    Ok(Guess {
        steps: work.steps,
        arguments,
        fails,
        true_one,
        supposed,
    })
}

// The calls that wait for so many rounds are unfolded.
fn unfold_all(
    alloc: Global,
    functions: &[Function],
    wait: u32,
    calls: &[StandingCall],
    supposed: &mut Numbers,
    work: &mut Work,
) -> Result<(), NoMemory>
    requires { wait < 2 ^ 32 - 1 }
    ensures { IfOk result (λ _. IsAdded work.old work.new supposed.old supposed.new
        (all_unfolded functions.now wait (length work.old.steps) (map stands calls.now))) }
{
    for c in calls {
        unfold_if(alloc, functions, wait, c, supposed, work)?;
    }
    Ok(())
}

// The call is unfolded if it waits for so many rounds.
fn unfold_if(
    alloc: Global,
    functions: &[Function],
    wait: u32,
    c: &StandingCall,
    supposed: &mut Numbers,
    work: &mut Work,
) -> Result<(), NoMemory>
    requires { wait < 2 ^ 32 - 1 }
    ensures { IfOk result (λ _. IsAdded work.old work.new supposed.old supposed.new
        (one_unfolded functions.now (nat_eq c.now.call.wait wait) (length work.old.steps) (stands c.now))) }
{
    if c.call.wait == wait {
        let holds = unfold_call(alloc, functions, c, work)?;
        supposed.push(holds.out)?;
    }
    Ok(())
}

// What holds of a call that is unfolded.
fn unfold_call(
    alloc: Global,
    functions: &[Function],
    c: &StandingCall,
    work: &mut Work,
) -> Result<Ends, NoMemory>
    requires { c.now.call.wait < 2 ^ 32 - 1 }
    ensures { IfOk result (λ r. IsMade work.old work.new
        (unfolded_call functions.now (length work.old.steps) (stands c.now)) r) }
{
    match at(functions, c.call.callee.0 as usize) {
        None => {
            let done = emit(work, Step::Both(c.call.reach, c.has))?;
            one(work, Step::Not(done), done)
        }
        Some(f) => tie(alloc, functions, f, c, work),
    }
}

// Where the call is reached and has an answer, the body of f has a value, which is the answer, and the postcondition is
// true of it.
fn tie(
    alloc: Global,
    functions: &[Function],
    f: &Function,
    c: &StandingCall,
    work: &mut Work,
) -> Result<Ends, NoMemory>
    requires { c.now.call.wait < 2 ^ 32 - 1 }
    ensures { IfOk result (λ r. IsMade work.old work.new
        (unfolded_of functions.now (Some f.now) (length work.old.steps) (stands c.now)) r) }
{
    let kind = CallKind::Left(c.call.wait + 1);
    let calls = Calls { functions, kind };
    let mut values = Items::from_slice(alloc, c.call.args.as_slice())?;
    let done = emit(work, Step::Both(c.call.reach, c.has))?;
    let site = Site {
        calls,
        asked: None,
        frame: &None,
    };
    let body = value_of(alloc, site, &mut values, done, &f.body, work)?;
    let same = one(
        work,
        Step::Binary(BinaryOp::Equal, body.out, c.result),
        body.alive,
    )?;
    let agreed = demand(work, false, same.alive, same.out)?;
    values.push(c.result)?;
    let ends = hold(alloc, calls, &f.post, &mut values, agreed.alive, work)?;
    imply(work, done, ends.alive)
}

/// The postcondition is true of the arguments and the result.
pub(crate) fn hold(
    alloc: Global,
    calls: Calls<'_>,
    post: &Option<(CheckId, Expr)>,
    values: &mut Numbers,
    reach: u32,
    work: &mut Work,
) -> Result<Ends, NoMemory>
    ensures { IfOk result (λ r. IsMade work.old work.new
        (holding (site_of calls.entry.functions.now calls.entry.kind None None) post.now
        (length work.old.steps) values.old reach) r) }
{
    match post {
        None => Ok(Ends {
            out: reach,
            alive: reach,
        }),
        Some((_, post)) => {
            let site = Site {
                calls,
                asked: None,
                frame: &None,
            };
            let x = value_of(alloc, site, values, reach, post, work)?;
            demand(work, false, x.alive, x.out)
        }
    }
}
