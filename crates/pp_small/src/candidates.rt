//! Lists of arguments, the cheapest first.

ghost use Rattle.std.specs.Prelude.{◌<◌, ◌^◌, length};

use crate::NoMemory;
use crate::levels::{Fields, Level};
use crate::lists::Lists;
use pp_list::Items;
use pp_prog::{Ctor, CtorId, DataId, Sort, Values};
use std::alloc::Global;

/// How many lists are made, of arguments and of fields: enough for the runs, and little work beside them.
const MOST_LISTS: usize = 10_000;

/// The lists of arguments of given sorts and of at most a given height, as far as they were made.
#[derive(Drop)]
pub(crate) struct Candidates<'a> {
    arguments: Lists<'a>,
    constructors: Vec<Fields<'a>>,
    datatypes: usize,
    levels: Items<Level>,
    room: usize,
}

impl<'a> Candidates<'a> {
    /// No lists yet, of arguments of these sorts and of at most this height.
    pub(crate) fn new(
        alloc: Global,
        datatypes: usize,
        ctors: &'a [Ctor],
        sorts: &'a [Sort],
        depth: u32,
    ) -> Result<Candidates<'a>, NoMemory>
        requires { length ctors.now < 2 ^ 32 }
    {
        let height = u64::from(depth);
        Ok(Candidates {
            arguments: Lists::new(alloc, sorts, height),
            constructors: constructors_for(alloc, ctors, sorts, height.saturating_sub(1))?,
            datatypes,
            levels: Items::new(alloc),
            room: MOST_LISTS,
        })
    }

    /// Makes the lists of the next cost.
    pub(crate) fn grow(&mut self, alloc: Global) -> Result<(), NoMemory> {
        let cost = self.levels.len();
        if cost > 0 {
            for fields in self.constructors.iter_mut() {
                fields
                    .lists
                    .grow(alloc, self.levels.as_slice(), &mut self.room)?;
            }
        }
        let level = Level::new(alloc, self.constructors.as_slice(), self.datatypes, cost)?;
        self.levels.push(level)?;
        self.arguments
            .grow(alloc, self.levels.as_slice(), &mut self.room)
    }

    /// The lists that were made last.
    pub(crate) fn last(&self) -> &[Values] {
        self.arguments.of_cost(self.levels.len().saturating_sub(1))
    }
}

/// The constructors that stand in values of these sorts, without fields yet, which may have this height.
fn constructors_for<'a>(
    alloc: Global,
    ctors: &'a [Ctor],
    sorts: &[Sort],
    height: u64,
) -> Result<Vec<Fields<'a>>, NoMemory>
    requires { length ctors.now < 2 ^ 32 }
{
    let met = datatypes_met(alloc, ctors, sorts)?;
    let mut constructors = Vec::new(alloc);
    for number in 0..ctors.len() {
        let ctor = &ctors[number];
        if met.as_slice().contains(&ctor.of) {
            constructors.push(Fields {
                ctor: CtorId(number as u32),
                of: ctor.of,
                lists: Lists::new(alloc, ctor.fields.as_slice(), height),
            })?;
        }
    }
    Ok(constructors)
}

/// The datatypes that values of these sorts have in them.
fn datatypes_met(alloc: Global, ctors: &[Ctor], sorts: &[Sort]) -> Result<Items<DataId>, NoMemory> {
    let mut met = Items::new(alloc);
    add_datatypes(&mut met, sorts)?;
    for _ in 0..ctors.len() {
        let before = met.len();
        add_fields(&mut met, ctors)?;
        if met.len() == before {
            return Ok(met);
        }
    }
    Ok(met)
}

/// Adds the datatypes of the fields of those that are there.
fn add_fields(met: &mut Items<DataId>, ctors: &[Ctor]) -> Result<(), NoMemory> {
    for ctor in ctors {
        if met.as_slice().contains(&ctor.of) {
            add_datatypes(met, ctor.fields.as_slice())?;
        }
    }
    Ok(())
}

/// Adds the datatypes among the sorts that aren't there yet.
fn add_datatypes(met: &mut Items<DataId>, sorts: &[Sort]) -> Result<(), NoMemory> {
    for sort in sorts {
        if let Sort::Tree(of) = sort {
            if !met.as_slice().contains(of) {
                met.push(*of)?;
            }
        }
    }
    Ok(())
}
