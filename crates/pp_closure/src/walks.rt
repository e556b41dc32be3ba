//! Which steps are decided by chains of orders and of sums. What is found is a guess alone: `chains` looks at each step
//! of a chain again.

ghost use Rattle.pp_closure.specs.Keeps.{Keeps};
ghost use Rattle.std.specs.Prelude.{OnOk};

use crate::NoMemory;
use crate::agenda::Agenda;
use crate::chains::{Hop, comparison_at, gap_of, learn_by_chain, link_at};
use crate::facts::Facts;
use crate::orders::Order;
use pp_list::at;
use pp_steps::Step;
use std::alloc::Global;

/// How many numbers a walk reaches at most, so that a chain has no more than twice as many links, and how many steps it
/// may decide.
const MOST_REACHED: usize = 32;

const MOST_FOUND: usize = 16;

/// Sums that differ by more aren't followed.
const LEAST_GAP: i32 = -1_000_000;

/// The work to decide a step by a chain.
const WORK_OF_CHAIN: u64 = 256;

/// A number that a walk reaches: by which step from which one that was reached before, and how far it is from the
/// first one at least.
#[derive(Clone, Copy)]
struct Reached {
    step: u32,
    by: u32,
    before: usize,
    gap: i32,
}

/// A step that compares a number below with one above, by their places.
#[derive(Clone, Copy)]
struct Found {
    step: u32,
    below: usize,
    above: usize,
}

/// The numbers that are known to be at most the lower one of two, and those that are at least the higher one, by the
/// step that compares the two.
#[derive(Drop)]
struct Walks {
    below: Vec<Reached>,
    above: Vec<Reached>,
    by: u32,
    gap: i32,
}

/// If it is known what the step says of the order of two others: what follows for steps that compare the ends of chains
/// through it. The only error is want of memory.
pub(crate) fn learn_chains(
    alloc: Global,
    facts: &mut Facts,
    all: &[Step],
    agenda: &mut Agenda,
    number: u32,
) -> Result<(), NoMemory>
    ensures { OnOk result (Keeps all.now facts.old facts.new) }
{
    match link_at(facts, all, number) {
        Some(link) => {
            let walks = Walks {
                below: walk(alloc, facts, all, agenda, link.low, false)?,
                above: walk(alloc, facts, all, agenda, link.high, true)?,
                by: number,
                gap: link.gap,
            };
            let found = walks.found(alloc, facts, all, agenda)?;
            learn_found(alloc, facts, all, agenda, &walks, found.as_slice())
        }
        None => Ok(()),
    }
}

/// What the chains say of the steps that were found. The only error is want of memory.
fn learn_found(
    alloc: Global,
    facts: &mut Facts,
    all: &[Step],
    agenda: &mut Agenda,
    walks: &Walks,
    found: &[Found],
) -> Result<(), NoMemory>
    ensures { OnOk result (Keeps all.now facts.old facts.new) }
{
    for it in found {
        agenda.spend(WORK_OF_CHAIN);
        let chain = walks.chain(alloc, *it)?;
        learn_by_chain(facts, all, it.step, chain.as_slice());
    }
    Ok(())
}

/// The numbers that chains of known orders reach from the step, breadth first: upward those that are at least as great,
/// and else those that are at most as great. The only error is want of memory.
fn walk(
    alloc: Global,
    facts: &Facts,
    all: &[Step],
    agenda: &mut Agenda,
    from: u32,
    upward: bool,
) -> Result<Vec<Reached>, NoMemory> {
    let mut reached = Vec::new(alloc);
    let mut users = Vec::new(alloc);
    reached.push(Reached {
        step: facts.root(from),
        by: 0,
        before: 0,
        gap: 0,
    })?;
    for place in 0..MOST_REACHED {
        match at(reached.as_slice(), place) {
            Some(here) => {
                let step = here.step;
                agenda.users_of(facts, step, &mut users)?;
                if let Some(maker) = facts.class(step).maker {
                    users.push(maker)?;
                }
                for by in users.as_slice() {
                    for operand in 0..3 {
                        let to = number_in(all, *by, operand);
                        let far = hop_from(facts, all, (step, *by, to), upward);
                        reach(facts, &mut reached, place, far)?;
                    }
                }
            }
            None => break,
        }
    }
    Ok(reached)
}

/// One of the three numbers that the step may compare: its operands, or itself.
fn number_in(all: &[Step], by: u32, place: usize) -> u32 {
    match at(all, by as usize) {
        Some(Step::Binary(_, a, b)) => match place {
            0 => *a,
            1 => *b,
            _ => by,
        },
        _ => by,
    }
}

/// What the step in the middle reaches from the first one, if that is the last one.
fn hop_from(facts: &Facts, all: &[Step], hop: (u32, u32, u32), upward: bool) -> Option<Reached> {
    let (here, by, to) = hop;
    let far = facts.root(to);
    if far == here {
        return None;
    }
    let gap = if upward {
        gap_of(facts, all, here, Hop { by, to: far })?
    } else {
        gap_of(facts, all, far, Hop { by, to: here })?
    };
    if gap < LEAST_GAP {
        return None;
    }
    Some(Reached {
        step: far,
        by,
        before: 0,
        gap,
    })
}

/// Notes what is reached from the place, unless it is as far already. A number whose bounds tell which one it is is
/// passed over, since bounds tell its order. The only error is want of memory.
fn reach(
    facts: &Facts,
    reached: &mut Vec<Reached>,
    before: usize,
    far: Option<Reached>,
) -> Result<(), NoMemory> {
    if let Some(far) = far {
        let gap = far.gap.saturating_add(gap_at(reached.as_slice(), before));
        let there = Reached { before, gap, ..far };
        if reached.len() < MOST_REACHED
            && facts.class(far.step).number().is_none()
            && is_farther(reached.as_slice(), there)
        {
            reached.push(there)?;
        }
    }
    Ok(())
}

fn gap_at(reached: &[Reached], place: usize) -> i32 {
    match at(reached, place) {
        Some(it) => it.gap,
        None => 0,
    }
}

fn is_farther(reached: &[Reached], far: Reached) -> bool {
    match place_of(reached, far.step) {
        Some(place) => far.gap > gap_at(reached, place),
        None => true,
    }
}

/// The last place of the number among those that are reached.
fn place_of(reached: &[Reached], step: u32) -> Option<usize> {
    let mut last = None;
    for place in 0..reached.len() {
        if let Some(it) = at(reached, place)
            && it.step == step
        {
            last = Some(place);
        }
    }
    last
}

impl Walks {
    /// The steps that compare a number below with one above. The only error is want of memory.
    fn found(
        &self,
        alloc: Global,
        facts: &Facts,
        all: &[Step],
        agenda: &mut Agenda,
    ) -> Result<Vec<Found>, NoMemory> {
        let mut found = Vec::new(alloc);
        let mut users = Vec::new(alloc);
        for below in 0..MOST_REACHED {
            match at(self.below.as_slice(), below) {
                Some(it) => {
                    agenda.users_of(facts, it.step, &mut users)?;
                    for user in users.as_slice() {
                        if let Some(it) = self.decided(facts, all, *user, below)
                            && found.len() < MOST_FOUND
                        {
                            found.push(it)?;
                        }
                    }
                }
                None => break,
            }
        }
        Ok(found)
    }

    /// The step, if it compares the number at the place below with one above, and isn't known to be as the chain shows.
    fn decided(&self, facts: &Facts, all: &[Step], step: u32, below: usize) -> Option<Found> {
        let order = comparison_at(facts, all, step)?;
        let first = *at(self.below.as_slice(), below)?;
        let forward = facts.root(order.low) == first.step;
        let other = if forward { order.high } else { order.low };
        let above = place_of(self.above.as_slice(), facts.root(other))?;
        let last = *at(self.above.as_slice(), above)?;
        let gap = first.gap.saturating_add(self.gap).saturating_add(last.gap);
        if is_news(order, facts.truth(step), gap, forward) {
            Some(Found { step, below, above })
        } else {
            None
        }
    }

    /// The hops that lead from the number below to the one above. The only error is want of memory.
    fn chain(&self, alloc: Global, found: Found) -> Result<Vec<Hop>, NoMemory> {
        let mut chain = Vec::new(alloc);
        let below = self.below.as_slice();
        let mut place = found.below;
        for _ in 0..MOST_REACHED {
            match at(below, place) {
                Some(it) if place > 0 => {
                    let (by, to) = (it.by, step_at(below, it.before));
                    chain.push(Hop { by, to })?;
                    place = it.before;
                }
                _ => break,
            }
        }
        let (by, to) = (self.by, step_at(self.above.as_slice(), 0));
        chain.push(Hop { by, to })?;
        let mut back = way(alloc, self.above.as_slice(), found.above)?;
        for _ in 0..back.len() {
            if let Some(hop) = back.pop() {
                chain.push(hop)?;
            }
        }
        Ok(chain)
    }
}

fn step_at(reached: &[Reached], place: usize) -> u32 {
    match at(reached, place) {
        Some(it) => it.step,
        None => 0,
    }
}

/// The hops that lead back from the place to the first one. The only error is want of memory.
fn way(alloc: Global, reached: &[Reached], from: usize) -> Result<Vec<Hop>, NoMemory> {
    let mut hops = Vec::new(alloc);
    let mut place = from;
    for _ in 0..MOST_REACHED {
        match at(reached, place) {
            Some(it) if place > 0 => {
                hops.push(Hop {
                    by: it.by,
                    to: it.step,
                })?;
                place = it.before;
            }
            _ => break,
        }
    }
    Ok(hops)
}

/// Whether something follows for a step that compares two numbers, of which the second is more by the gap at least, or,
/// if it isn't forward, the first.
fn is_news(order: Order, truth: Option<bool>, gap: i32, forward: bool) -> bool {
    match truth {
        Some(truth) => gap >= 0 && (truth == order.positive) != forward,
        None => gap > 0 || !forward && gap == 0,
    }
}
