//! Where a check stands after each turn of it. The first line of each program has a name, the number of the last round,
//! the number of a check, and how often the check is named. The name is told, and where the check stands before the
//! first turn and after each one: the round that comes next, or that it has ended. What is to be printed follows from
//! the nesting of the calls.

ghost use Rattle.pp_checks.specs.Plan.{IsPlanOf};

use anyhow::{Result, ensure};
use pp_bounded_samples::words::{number, word};
use pp_case_line::CaseLine;
use pp_front::Accepted;
use pp_prog::CheckId;
use pp_turns::{Limits, Part, Turns};
use std::alloc::Global;

/// How high arguments are, how many lemmas a query may learn, and how many gates its circuit may have.
const DEPTH: u32 = 3;

const LEMMAS: u64 = 10_000;

const GATES: u64 = 2_000_000;

/// Tells the name of a program, and where its check stands before and after each turn of it.
pub fn tell_parts(alloc: Global, words: &str, accepted: &Accepted, out: &mut CaseLine) -> Result<()>
    requires { IsPlanOf accepted.now.plan accepted.now.program }
{
    let (program, plan) = (&accepted.program, &accepted.plan);
    let rounds = number(words, 1, 0, 12)?;
    let check = CheckId(number(words, 2, 0, u32::MAX)?);
    let times = number(words, 3, 0, 13)?;
    ensure!((check.0 as usize) < program.checks().len(), "no such check");
    let limits = Limits {
        rounds,
        depth: DEPTH,
        lemmas: LEMMAS,
        gates: GATES,
    };
    let mut turns = Turns::start(alloc, program, plan, limits)?;
    out.put(format_args!("{}", word(words, 0)));
    put_part(out, turns.part(check));
    for _ in 0..times {
        turns = turns.turn(alloc, program, plan, check)?;
        put_part(out, turns.part(check));
    }
    out.put(format_args!("\n"));
    Ok(())
}

/// The round at which a check stands, or that it has ended.
fn put_part(out: &mut CaseLine, part: Part) {
    match part {
        Part::At(round) => out.put(format_args!(" {round}")),
        Part::Ended => out.put(format_args!(" ended")),
    }
}
