//! Guess runs whose calls are unfolded on demand: refuted by cases, over a list of steps that grows by the calls that
//! the cases want.

ghost use Rattle.std.specs.Prelude.{◌≡◌, ◌<◌, ◌≤◌, ℕ, true, Contains, IfOk, length};
ghost use Rattle.pp_checks.specs.Plan.{IsPlanOf};
ghost use Rattle.pp_closure.specs.Refuted.{IsRefutation};
ghost use Rattle.pp_compile.specs.Guessed.{guess_of, stands};
ghost use Rattle.pp_induction.specs.Ends.{NoGuessFails};
ghost use Rattle.pp_limits.specs.declared.TheConstants.{ROUNDS};
ghost use Rattle.pp_prog.specs.declared.expr.Function.{Function as AnyFunction};
ghost use Rattle.pp_prog.specs.declared.id.CheckId.{CheckId as AnyCheck};
ghost use Rattle.pp_query.specs.Demanded.{AllStand, IsDemanded, IsDenied, StillStands};
ghost use Rattle.pp_sound.specs.Sound.{IsCheckOf};
ghost use Rattle.pp_steps.specs.Guesses.{standing};

use crate::NoMemory;
use crate::unfolded::{Chosen, Unfolded};
use pp_checks::Plan;
use pp_closure::{Refutation, Unfoldables, refute_on_demand};
use pp_compile::{Guess, StandingCall, Unfolding, moved, standing_calls, start_alone};
use pp_list::{Items, at};
use pp_prog::{CheckId, Function, Program};
use pp_symbolic::owner;
use std::alloc::Global;

/// How many lists of steps are tried, how many steps a list may have that is made longer, and how much work is done with
/// all of them.
const MOST_LISTS: u32 = 200;

const MOST_STEPS: usize = 8_000;

const MOST_WORK: u64 = 60_000_000;

/// Whether it is refuted that a guess run of the round fails the check; else nothing is known. The only error is want
/// of memory, which is also more than 2^32 - 1 steps.
pub(crate) fn no_demanded_guess_fails(
    alloc: Global,
    program: &Program,
    plan: &Plan,
    check: CheckId,
    round: u32,
) -> Result<bool, NoMemory>
    requires plan { IsPlanOf plan.now program.now }
    requires check { check.0 < length program.now.checks }
    requires round { round ≤ ROUNDS.most }
    ensures none { IfOk result (λ r. r ≡ true → (i : ℕ) → IsCheckOf program.now i check.0
        → NoGuessFails program.now i check round) }
{
    let functions = program.functions.as_slice();
    let guess = start_alone(alloc, functions, owner(program, check), check)?;
    let refuted = never_fails(alloc, program, plan, guess, round)?;
    Ok(refuted)
}

/// Whether no values of the steps, or of those with more calls unfolded behind them, say that the check fails.
fn never_fails(
    alloc: Global,
    program: &Program,
    plan: &Plan,
    guess: Guess,
    round: u32,
) -> Result<bool, NoMemory>
    requires { round ≤ ROUNDS.most }
    ensures { IfOk result (λ r. r ≡ true → (f : AnyFunction) (check : AnyCheck)
        → IsDemanded program.now.functions f check round (guess_of guess)
        → IsDenied program.now.functions f check round) }
{
    let functions = program.functions.as_slice();
    let mut longer = guess;
    let mut unfolded = Unfolded::new(alloc);
    let mut work = MOST_WORK;
    for _ in 0..MOST_LISTS {
        let calls = standing_calls(alloc, longer.steps.as_slice())?;
        let candidates = unfolded.candidates(alloc, program, plan, calls.as_slice(), round)?;
        let asked = Unfoldables {
            open: Items::from_slice(alloc, candidates.open.as_slice())?,
            done: Items::from_slice(alloc, unfolded.all.as_slice())?,
            work,
        };
        match refute(alloc, program, &longer, asked)? {
            Refutation::Refuted => return Ok(true),
            Refutation::Unknown { wanted, left } => {
                if wanted.is_empty() || left == 0 || longer.steps.len() > MOST_STEPS {
                    return Ok(false);
                }
                work = left;
                let chosen = candidates.choose(alloc, wanted.as_slice(), &mut unfolded)?;
                longer = unfold_all(
                    alloc,
                    functions,
                    round,
                    longer,
                    calls.as_slice(),
                    chosen.as_slice(),
                )?;
            }
        }
    }
    Ok(false)
}

/// Whether no values of the steps make all that is supposed true, and fail the check; and else what is to be unfolded.
fn refute(
    alloc: Global,
    program: &Program,
    guess: &Guess,
    calls: Unfoldables,
) -> Result<Refutation, NoMemory>
    ensures { IfOk result (IsRefutation guess.now.steps guess.now.fails guess.now.supposed) }
{
    let (steps, supposed) = (guess.steps.as_slice(), guess.supposed.as_slice());
    let refutation = refute_on_demand(alloc, program.types(), steps, guess.fails, supposed, calls)?;
    Ok(refutation)
}

/// The steps with those of the chosen parts of calls behind them, where the calls wait less than the round. The only
/// error is want of memory, which is also more than 2^32 - 1 steps.
fn unfold_all(
    alloc: Global,
    functions: &[Function],
    round: u32,
    guess: Guess,
    calls: &[StandingCall],
    chosen: &[Chosen],
) -> Result<Guess, NoMemory>
    requires round { round ≤ ROUNDS.most }
    ensures { IfOk result (λ r. (f : AnyFunction) (check : AnyCheck) → AllStand calls.now (guess_of guess)
        → IsDemanded functions.now f check round (guess_of guess)
        → IsDemanded functions.now f check round (guess_of r)) }
{
    let mut longer = guess;
    for it in chosen {
        longer = unfold_one(alloc, functions, round, longer, calls, *it)?;
    }
    Ok(longer)
}

/// The steps with those of the chosen part of a call behind them, if there is one and it waits less than the round.
fn unfold_one(
    alloc: Global,
    functions: &[Function],
    round: u32,
    guess: Guess,
    calls: &[StandingCall],
    chosen: Chosen,
) -> Result<Guess, NoMemory>
    requires round { round ≤ ROUNDS.most }
    ensures { IfOk result (λ r. (f : AnyFunction) (check : AnyCheck) → AllStand calls.now (guess_of guess)
        → IsDemanded functions.now f check round (guess_of guess)
        → AllStand calls.now (guess_of r) × IsDemanded functions.now f check round (guess_of r)) }
{
    match at(calls, chosen.place as usize) {
        Some(call) => {
            let longer = unfold(alloc, functions, round, guess, call, chosen.part)?;
            Ok(longer)
        }
        None => Ok(guess),
    }
}

/// The steps with those of the part of the call behind them, where it waits less than the round.
fn unfold(
    alloc: Global,
    functions: &[Function],
    round: u32,
    guess: Guess,
    call: &StandingCall,
    part: Unfolding,
) -> Result<Guess, NoMemory>
    requires round { round ≤ ROUNDS.most }
    ensures demanded { IfOk result (λ r. (f : AnyFunction) (check : AnyCheck)
        → Contains (standing 0 guess.steps) (stands call.now)
        → IsDemanded functions.now f check round (guess_of guess)
        → IsDemanded functions.now f check round (guess_of r)) }
    ensures stand { IfOk result (λ r. StillStands (guess_of guess) (guess_of r)) }
{
    if call.call.wait < round {
        let longer = moved(alloc, functions, part, call, guess)?;
        return Ok(longer);
    }
    Ok(guess)
}
