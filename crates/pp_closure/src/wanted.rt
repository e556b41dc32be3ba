//! Which calls are to be unfolded, as far as cases that couldn't be refuted tell.

use crate::NoMemory;
use crate::alike::mark_of;
use crate::facts::Facts;
use crate::seen::{Deed, Seen};
use pp_compile::Unfolding;
use pp_list::{Items, at};
use pp_prog::Sort;
use pp_steps::{OpenCall, Step};
use std::alloc::Global;

/// How many cases of one list may tell which calls they want.
const MOST_WANTING: u32 = 6;

/// What is or may be unfolded of a call: by the number of the step that tells whether it has an answer, the part of it,
/// and whether a call of its function may lead to another one. Source: own.
#[derive(Clone, Copy)]
pub struct Unfoldable {
    pub has: u32,
    pub part: Unfolding,
    pub recursive: bool,
}

/// What may be unfolded, what was, and how much work may be done to find out what is wanted. Source: own.
#[derive(Drop)]
pub struct Unfoldables {
    pub open: Items<Unfoldable>,
    pub done: Items<Unfoldable>,
    pub work: u64,
}

/// How soon something is unfolded: postconditions first; then bodies that match a tree which is known, or that can't
/// lead to themselves; and other bodies where nothing is left to decide, one at a time. Of bodies those come first that
/// wait least.
#[derive(Clone, Copy, PartialEq, Eq, Debug)]
pub(crate) enum Urgency {
    First,
    Second,
    Last,
}

/// What may be unfolded, and what of it is wanted, by place, so far; and how many cases more may want something.
#[derive(Drop)]
pub(crate) struct Wishes {
    calls: Unfoldables,
    pub wanted: Items<u32>,
    left: u32,
}

impl Wishes {
    /// Nothing is wanted yet.
    pub(crate) fn new(alloc: Global, calls: Unfoldables) -> Wishes {
        Wishes {
            calls,
            wanted: Items::new(alloc),
            left: MOST_WANTING,
        }
    }

    /// Whether another case may want something.
    pub(crate) fn are_few(&self) -> bool {
        self.left > 0
    }

    /// What a case wants in which nothing more follows: whether there is something so urgent, except for the last. The
    /// only error is want of memory.
    pub(crate) fn enter(
        &mut self,
        alloc: Global,
        all: &[Step],
        facts: &Facts,
    ) -> Result<bool, NoMemory> {
        let any = self.enter_urgent(alloc, all, facts, Urgency::First)?
            || self.enter_urgent(alloc, all, facts, Urgency::Second)?;
        Ok(any)
    }

    /// What a case wants in which nothing is left to decide: one body. The only error is want of memory.
    pub(crate) fn enter_last(
        &mut self,
        alloc: Global,
        all: &[Step],
        facts: &Facts,
    ) -> Result<bool, NoMemory> {
        self.enter_urgent(alloc, all, facts, Urgency::Last)
    }

    /// Whether something is as urgent; then it is wanted. The only error is want of memory.
    fn enter_urgent(
        &mut self,
        alloc: Global,
        all: &[Step],
        facts: &Facts,
        urgency: Urgency,
    ) -> Result<bool, NoMemory> {
        let places = self.places(alloc, all, facts, urgency)?;
        if places.is_empty() {
            return Ok(false);
        }
        self.left = self.left.saturating_sub(1);
        for place in places.as_slice() {
            if !is_one_of(self.wanted.as_slice(), *place) {
                self.wanted.push(*place)?;
            }
        }
        Ok(true)
    }

    /// The places of what is as urgent, unless the like of it was unfolded. The only error is want of memory.
    fn places(
        &self,
        alloc: Global,
        all: &[Step],
        facts: &Facts,
        urgency: Urgency,
    ) -> Result<Items<u32>, NoMemory> {
        let mut met = Seen::new(alloc);
        for unfolded in self.calls.done.as_slice() {
            if let Some(call) = call_at(all, unfolded.has) {
                met.note(deed_of(facts, call, unfolded.part), unfolded.has)?;
            }
        }
        let mut places = Items::new(alloc);
        let mut waits = Items::new(alloc);
        let count = self.calls.open.len().min(u32::MAX as usize) as u32;
        for place in 0..count {
            if let Some(it) = at(self.calls.open.as_slice(), place as usize)
                && let Some(call) = call_at(all, it.has)
                && is_done(facts, it.has, call)
                && urgency_of(facts, it, call) == urgency
                && met.last(deed_of(facts, call, it.part)).is_none()
            {
                met.note(deed_of(facts, call, it.part), it.has)?;
                places.push(place)?;
                waits.push(call.wait)?;
            }
        }
        match urgency {
            Urgency::First => Ok(places),
            Urgency::Second => least_of(alloc, &places, &waits, usize::MAX),
            Urgency::Last => least_of(alloc, &places, &waits, 1),
        }
    }
}

/// The places of the calls that wait least, and so many of them at most. The only error is want of memory.
fn least_of(
    alloc: Global,
    places: &Items<u32>,
    waits: &Items<u32>,
    most: usize,
) -> Result<Items<u32>, NoMemory> {
    let mut least = u32::MAX;
    for wait in waits.as_slice() {
        least = least.min(*wait);
    }
    let mut chosen = Items::new(alloc);
    for place in 0..waits.len() {
        if at(waits.as_slice(), place) == Some(&least)
            && chosen.len() < most
            && let Some(one) = at(places.as_slice(), place)
        {
            chosen.push(*one)?;
        }
    }
    Ok(chosen)
}

/// The call of which the step tells whether it has an answer.
fn call_at(all: &[Step], has: u32) -> Option<&OpenCall> {
    match at(all, has as usize) {
        Some(Step::HasAnswer(call)) => Some(call),
        _ => None,
    }
}

/// Whether the call is known to be reached and to have an answer.
fn is_done(facts: &Facts, has: u32, call: &OpenCall) -> bool {
    facts.is(call.reach, true) && facts.is(has, true)
}

/// What is unfolded, so that the like of it is found: the same part of a call of the same function on arguments that are
/// known to have the same values says the same.
fn deed_of(facts: &Facts, call: &OpenCall, part: Unfolding) -> Deed {
    let mark = mark_of(facts, call.args.as_slice());
    match part {
        Unfolding::Body => Deed::Body(call.callee.0, mark),
        Unfolding::Post => Deed::Post(call.callee.0, mark),
    }
}

fn urgency_of(facts: &Facts, it: &Unfoldable, call: &OpenCall) -> Urgency {
    match it.part {
        Unfolding::Post => Urgency::First,
        Unfolding::Body => match knows_tree(facts, call) {
            Some(true) => Urgency::Second,
            Some(false) => Urgency::Last,
            None if it.recursive => Urgency::Last,
            None => Urgency::Second,
        },
    }
}

/// Whether the constructor of a tree among the arguments is known, if there is one.
fn knows_tree(facts: &Facts, call: &OpenCall) -> Option<bool> {
    let mut known = None;
    for place in 0..call.params.len() {
        if let Some(Sort::Tree(_)) = at(call.params.as_slice(), place)
            && let Some(arg) = at(call.args.as_slice(), place)
        {
            if facts.known(*arg).shape.is_some() {
                return Some(true);
            }
            known = Some(false);
        }
    }
    known
}

fn is_one_of(numbers: &[u32], number: u32) -> bool {
    for one in numbers {
        if *one == number {
            return true;
        }
    }
    false
}
