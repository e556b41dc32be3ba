//! Open calls that stand in a list of steps.

ghost use Rattle.std.specs.Prelude.{◌≡◌, ◌<◌, ◌^◌, ◌-◌, ◌++◌, ◌∷◌, [], IfOk, map};
ghost use Rattle.pp_steps.specs.Guesses.{calls_before, calls_from, standing};
ghost use Rattle.pp_compile.specs.Guessed.{stands};

use crate::NoMemory;
use pp_list::Items;
use pp_steps::{OpenCall, Step};
use std::alloc::Global;

/// An open call, with the number that tells whether it has an answer, and the number of the answer.
#[derive(Drop)]
pub struct StandingCall {
    pub call: OpenCall,
    pub has: u32,
    pub result: u32,
}

/// The open calls in front of a number, and those from it on.
#[derive(Drop)]
pub(crate) struct StandingCalls {
    pub before: Items<StandingCall>,
    pub from: Items<StandingCall>,
}

/// The open calls of the steps, in their order. The only error is want of memory, which is also more than 2^32 - 1 steps.
pub fn standing_calls(alloc: Global, steps: &[Step]) -> Result<Items<StandingCall>, NoMemory>
    ensures { IfOk result (λ r. map stands r ≡ standing 0 steps.now) }
{
    let calls = calls_at(alloc, steps, 0)?;
    let StandingCalls { before: _, from } = calls;
    Ok(from)
}

/// The open calls of the steps, at most 2^32 - 1, parted at this number.
pub(crate) fn calls_at(
    alloc: Global,
    steps: &[Step],
    from: usize,
) -> Result<StandingCalls, NoMemory>
    ensures before { IfOk result (λ r. map stands r.before ≡ calls_before from (standing 0 steps.now)) }
    ensures from { IfOk result (λ r. map stands r.from ≡ calls_from from (standing 0 steps.now)) }
{
    if steps.len() > u32::MAX as usize {
        return Err(NoMemory);
    }
    let mut calls = StandingCalls {
        before: Items::new(alloc),
        from: Items::new(alloc),
    };
    for i in 0..steps.len() {
        collect(alloc, &mut calls, &steps[i], i as u32, from)?;
    }
    Ok(calls)
}

// The call of this step, if it has one, behind those that were found.
fn collect(
    alloc: Global,
    calls: &mut StandingCalls,
    step: &Step,
    number: u32,
    from: usize,
) -> Result<(), NoMemory>
    requires { number < 2 ^ 32 - 1 }
    ensures before { IfOk result (λ _. map stands calls.new.before ≡
        map stands calls.old.before ++ calls_before from (standing number (step.now ∷ []))) }
    ensures from { IfOk result (λ _. map stands calls.new.from ≡
        map stands calls.old.from ++ calls_from from (standing number (step.now ∷ []))) }
{
    match step {
        Step::HasAnswer(call) => {
            let call = copied(alloc, call)?;
            let standing = StandingCall {
                call,
                has: number,
                result: number + 1,
            };
            if (number as usize) < from {
                calls.before.push(standing)?;
            } else {
                calls.from.push(standing)?;
            }
            Ok(())
        }
        _ => Ok(()),
    }
}

// The same call.
fn copied(alloc: Global, call: &OpenCall) -> Result<OpenCall, NoMemory>
    ensures { IfOk result (λ c. c ≡ call.now) }
{
    let params = Items::from_slice(alloc, call.params.as_slice())?;
    let args = Items::from_slice(alloc, call.args.as_slice())?;
    Ok(OpenCall {
        callee: call.callee,
        wait: call.wait,
        reach: call.reach,
        params,
        result: call.result,
        args,
    })
}
