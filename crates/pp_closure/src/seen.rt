//! Which steps were seen that do a thing: where to look for a step that has another one's value.

use crate::NoMemory;
use indexmap::IndexMap;
use pp_list::Items;
use std::alloc::Global;

/// What a step does, to the first steps of the classes of its operands.
#[derive(Clone, Copy, PartialEq, Eq, Hash, Debug)]
pub(crate) enum Deed {
    /// It says whether the one is less than the other.
    Order(u32, u32),
    /// It says so of two numbers that are as far from these.
    Offset(u32, u32),
    /// It does this to the two, by the number of the operator, or to one.
    Binary(u32, u32, u32),
    Unary(u32, u32),
    /// It is the negation.
    Not(u32),
    /// It says of a sum that these are its parts, or that it is this, with this part.
    Sum(u32, u32),
    Rest(u32, u32),
    /// It is this constructor, which has no fields.
    Constant(u32),
    /// It makes the constructor of fields with this mark.
    Construct(u32, u32),
    /// It says whether a value has the constructor.
    Test(u32, u32),
    /// It is the field of the constructor at a place.
    Field(u32, u32, u32),
    /// It has the constructor, and fields with this mark were looked at.
    Whole(u32, u32),
    /// It says whether a call of the function that waits so long has an answer, or is the answer, on arguments with this
    /// mark.
    Having(u32, u32, u32),
    Answer(u32, u32),
    /// It belongs to a call of the function on arguments with this mark, of which the body or the postcondition is
    /// unfolded.
    Body(u32, u32),
    Post(u32, u32),
}

/// The last step that was seen to do each thing, and what was noted before, so that it can be taken back. It is a guess
/// alone: who uses it looks whether the step does.
#[derive(Drop)]
pub(crate) struct Seen {
    steps: IndexMap<Deed, u32>,
    before: Items<(Deed, u32)>,
}

impl Seen {
    /// Nothing was seen.
    pub(crate) fn new(alloc: Global) -> Seen {
        Seen {
            steps: IndexMap::new(alloc),
            before: Items::new(alloc),
        }
    }

    /// Notes that the step does it: the step that was seen to do it before. The only error is want of memory.
    pub(crate) fn note(&mut self, deed: Deed, number: u32) -> Result<Option<u32>, NoMemory> {
        let before = self.steps.insert(deed, number)?;
        if let Some(other) = before {
            if other != number {
                self.before.push((deed, other))?;
            }
        }
        Ok(before)
    }

    /// The step that was seen to do it.
    pub(crate) fn last(&self, deed: Deed) -> Option<u32> {
        self.steps.get(&deed).copied()
    }

    /// How much was noted so far, for `take_back`.
    pub(crate) fn so_far(&self) -> usize {
        self.before.len()
    }

    /// Takes back what was noted in another step's place since then. The only error is want of memory.
    pub(crate) fn take_back(&mut self, so_far: usize) -> Result<(), NoMemory> {
        for _ in so_far..self.before.len() {
            if let Some((deed, number)) = self.before.pop() {
                self.steps.insert(deed, number)?;
            }
        }
        Ok(())
    }
}
