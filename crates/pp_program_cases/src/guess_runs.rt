//! Whether checks are proved in a round: where no guess run of the round fails them. The first line of each program has
//! its number, a round, and the number of a check. The number is told, and whether the check is proved. What is to be
//! printed was worked out by the definition of guess runs, over all arguments and all tables of answers: the functions
//! of these sources are over truth values.

ghost use Rattle.std.specs.Prelude.{◌≤◌};
ghost use Rattle.pp_checks.specs.Plan.{IsPlanOf};

use anyhow::{Result, ensure};
use pp_bounded_samples::words::{number, word};
use pp_case_line::CaseLine;
use pp_estimate::estimate;
use pp_front::Accepted;
use pp_limits::GATES;
use pp_prog::CheckId;
use pp_query::{Proof, prove};
use std::alloc::Global;

/// How many lemmas a proof may learn.
const LEMMAS: u64 = 10_000;

/// Tells the number of a program, and whether its check is proved.
pub fn tell_proved(
    alloc: Global,
    words: &str,
    accepted: &Accepted,
    out: &mut CaseLine,
) -> Result<()>
    requires { IsPlanOf accepted.now.plan accepted.now.program }
{
    let round = number(words, 1, 0, 12)?;
    let check = number(words, 2, 0, u32::MAX)?;
    let proof = proof(alloc, accepted, CheckId(check), round)?;
    out.put(format_args!("{} {proof}\n", word(words, 0)));
    Ok(())
}

/// How the proof of the check in the round ends.
fn proof(alloc: Global, accepted: &Accepted, check: CheckId, round: u32) -> Result<&'static str>
    requires plan { IsPlanOf accepted.now.plan accepted.now.program }
    requires round { round ≤ 12 }
{
    let (program, plan) = (&accepted.program, &accepted.plan);
    ensure!((check.0 as usize) < program.checks().len(), "no such check");
    let most = estimate(alloc, program, plan, check, round, 1)?;
    ensure!(most <= u64::from(GATES.most), "too large");
    Ok(match prove(alloc, program, plan, check, round, LEMMAS)? {
        Proof::Proved => "proved",
        Proof::NotProved => "fails",
        Proof::Spent(_) => "spent",
    })
}
