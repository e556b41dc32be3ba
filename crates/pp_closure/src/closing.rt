//! All that the steps say, until nothing more follows.

ghost use Rattle.std.specs.Prelude.{◌≤◌, ◌^◌, OnOk, length};
ghost use Rattle.pp_steps.specs.Meaning.{Values};
ghost use Rattle.pp_closure.specs.Facts.{Holds};
ghost use Rattle.pp_closure.specs.Keeps.{Keeps};

use crate::NoMemory;
use crate::agenda::Agenda;
use crate::facts::Facts;
use crate::learning::learn;
use crate::seen::Seen;
use crate::walks::learn_chains;
use pp_steps::Step;
use std::alloc::Global;

/// How often the steps that are due are gone over.
const MOST_PASSES: u32 = 64;

/// Lets the steps that are due say what follows, until nothing more does, a contradiction is found, or no work is left.
/// The only error is want of memory.
pub(crate) fn close(
    alloc: Global,
    facts: &mut Facts,
    all: &[Step],
    agenda: &mut Agenda,
    seen: &mut Seen,
) -> Result<(), NoMemory>
    requires { length all.now ≤ 2 ^ 32 }
    ensures { OnOk result (Keeps all.now facts.old facts.new) }
{
    wake(facts, agenda)?;
    for _ in 0..MOST_PASSES {
        if facts.refuted || !pass(alloc, facts, all, agenda, seen)? {
            break;
        }
    }
    Ok(())
}

/// Lets each step that is due say what follows, and the chains of orders through it, in order: whether there was one.
/// The only error is want of memory.
fn pass(
    alloc: Global,
    facts: &mut Facts,
    all: &[Step],
    agenda: &mut Agenda,
    seen: &mut Seen,
) -> Result<bool, NoMemory>
    requires { length all.now ≤ 2 ^ 32 }
    ensures { OnOk result (Keeps all.now facts.old facts.new) }
{
    let mut any = false;
    agenda.go_over();
    for number in 0..all.len() {
        if facts.refuted || agenda.is_spent() {
            break;
        }
        if agenda.take(number) {
            any = true;
            learn(alloc, facts, all, seen, number as u32, &all[number])?;
            learn_chains(alloc, facts, all, agenda, number as u32)?;
            wake(facts, agenda)?;
        }
    }
    Ok(any)
}

/// What something was noted of is due. The only error is want of memory.
fn wake(facts: &mut Facts, agenda: &mut Agenda) -> Result<(), NoMemory>
    ensures { (ρ : Values) → Holds ρ facts.old → Holds ρ facts.new }
{
    let news = facts.take_news();
    agenda.enter_news(facts, &news)
}
