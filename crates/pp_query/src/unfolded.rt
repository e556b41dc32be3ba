//! Which parts of calls were unfolded, and which may be. Nothing is promised of them: who unfolds a call looks whether it
//! stands.

use crate::NoMemory;
use pp_checks::Plan;
use pp_closure::Unfoldable;
use pp_compile::{StandingCall, Unfolding};
use pp_list::{Items, at};
use pp_prog::{FunctionId, Program};
use std::alloc::Global;

/// A function whose call tree is no deeper can be unfolded whole.
const SHALLOW: u32 = 6;

/// A part of a call, which stands at this place among those that stand.
#[derive(Clone, Copy)]
pub(crate) struct Chosen {
    pub place: u32,
    pub part: Unfolding,
}

/// What may be unfolded: by the numbers of steps, and by the places of the calls.
#[derive(Drop)]
pub(crate) struct Candidates {
    pub open: Items<Unfoldable>,
    pub chosen: Items<Chosen>,
}

/// What was unfolded; and, by the number of the step that tells whether a call has an answer, whether its body was, and
/// whether its postcondition was.
#[derive(Drop)]
pub(crate) struct Unfolded {
    pub all: Items<Unfoldable>,
    bodies: Items<bool>,
    posts: Items<bool>,
}

impl Unfolded {
    /// Nothing was unfolded yet.
    pub(crate) fn new(alloc: Global) -> Unfolded {
        Unfolded {
            all: Items::new(alloc),
            bodies: Items::new(alloc),
            posts: Items::new(alloc),
        }
    }

    /// What may be unfolded of the calls that wait less than the round, and wasn't. The only error is want of memory.
    pub(crate) fn candidates(
        &self,
        alloc: Global,
        program: &Program,
        plan: &Plan,
        calls: &[StandingCall],
        round: u32,
    ) -> Result<Candidates, NoMemory> {
        let mut candidates = Candidates {
            open: Items::new(alloc),
            chosen: Items::new(alloc),
        };
        let count = calls.len().min(u32::MAX as usize) as u32;
        for place in 0..count {
            if let Some(call) = at(calls, place as usize)
                && call.call.wait < round
            {
                self.enter(program, plan, call, place, &mut candidates)?;
            }
        }
        Ok(candidates)
    }

    /// The parts of the call that weren't unfolded. The only error is want of memory.
    fn enter(
        &self,
        program: &Program,
        plan: &Plan,
        call: &StandingCall,
        place: u32,
        candidates: &mut Candidates,
    ) -> Result<(), NoMemory> {
        let callee = call.call.callee;
        let has = call.has;
        if has_post(program, callee) && !is_marked(&self.posts, has) {
            candidates.push(has, place, Unfolding::Post, false)?;
        }
        if !is_marked(&self.bodies, has) {
            let recursive = !plan.nested(callee, SHALLOW);
            candidates.push(has, place, Unfolding::Body, recursive)?;
        }
        Ok(())
    }

    /// Notes that this is unfolded. The only error is want of memory.
    pub(crate) fn note(&mut self, it: Unfoldable) -> Result<(), NoMemory> {
        self.all.push(it)?;
        match it.part {
            Unfolding::Body => mark(&mut self.bodies, it.has),
            Unfolding::Post => mark(&mut self.posts, it.has),
        }
    }
}

impl Candidates {
    fn push(
        &mut self,
        has: u32,
        place: u32,
        part: Unfolding,
        recursive: bool,
    ) -> Result<(), NoMemory> {
        self.open.push(Unfoldable {
            has,
            part,
            recursive,
        })?;
        self.chosen.push(Chosen { place, part })
    }

    /// Those at these places; they count as unfolded. The only error is want of memory.
    pub(crate) fn choose(
        &self,
        alloc: Global,
        places: &[u32],
        unfolded: &mut Unfolded,
    ) -> Result<Items<Chosen>, NoMemory> {
        let mut all = Items::new(alloc);
        for place in places {
            if let (Some(it), Some(chosen)) = (
                at(self.open.as_slice(), *place as usize),
                at(self.chosen.as_slice(), *place as usize),
            ) {
                unfolded.note(*it)?;
                all.push(*chosen)?;
            }
        }
        Ok(all)
    }
}

/// Whether the function has a postcondition.
fn has_post(program: &Program, f: FunctionId) -> bool {
    match at(program.functions.as_slice(), f.0 as usize) {
        Some(function) => function.post.is_some(),
        None => false,
    }
}

fn is_marked(marks: &Items<bool>, number: u32) -> bool {
    match at(marks.as_slice(), number as usize) {
        Some(mark) => *mark,
        None => false,
    }
}

/// Marks the number. The only error is want of memory.
fn mark(marks: &mut Items<bool>, number: u32) -> Result<(), NoMemory> {
    for _ in marks.len()..number as usize + 1 {
        marks.push(false)?;
    }
    if (number as usize) < marks.len() {
        marks.set(number as usize, true);
    }
    Ok(())
}
