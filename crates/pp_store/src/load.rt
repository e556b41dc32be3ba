//! Values that come into a store.

ghost use Rattle.std.specs.Prelude.{◌≡◌, ◌++◌, IfOk, OnOk};
ghost use Rattle.pp_prog.specs.declared.value.Value.TheViews.{out-Value};
ghost use Rattle.pp_store.specs.Values.{AreHeld, Extends, StandsFor};
ghost use Rattle.pp_store.specs.Work.{IsLoaded, IsMade, steps_of, tree_steps};

use crate::NoMemory;
use crate::held::Held;
use crate::store::Store;
use crate::unload::popped;
use pp_list::Items;
use pp_prog::{CtorId, Value};
use std::alloc::Global;

/// What is left to do: load the value, or make a tree of so many values that were loaded last.
#[derive(Clone, Copy)]
pub(crate) enum Pending<'v> {
    Load(&'v Value),
    Make(CtorId, usize),
}

impl Store {
    /// Holds the value. It doesn't recurse on the value's height. Want of memory is the only error, as a tree past 2^32
    /// and a field past 2^32 are; what was held stays as it was, then too, and some trees below the value may have been
    /// made.
    pub fn load(&mut self, alloc: Global, value: &Value) -> Result<Held, NoMemory>
        ensures extends { Extends self.old self.new }
        ensures loaded { IfOk result (λ held. StandsFor self.new held value.now) }
    {
        let mut pending = Items::new(alloc);
        let mut helds = Items::new(alloc);
        pending.push(Pending::Load(value))?;
        while let Some(next) = pending.pop() {
            match next {
                Pending::Load(value) => load_next(&mut pending, &mut helds, value)?,
                Pending::Make(ctor, count) => self.make_next(alloc, &mut helds, ctor, count)?,
            }
        }
        match helds.pop() {
            Some(held) => Ok(held),
            None => unreachable!(),
        }
    }

    /// Makes a tree of so many values that were loaded last.
    fn make_next(
        &mut self,
        alloc: Global,
        helds: &mut Items<Held>,
        ctor: CtorId,
        count: usize,
    ) -> Result<(), NoMemory>
        requires { AreHeld self.old helds.old }
        ensures extends { Extends self.old self.new }
        ensures made { OnOk result (IsMade ctor count self.old self.new helds.old helds.new) }
    {
        let fields = popped(alloc, helds, count)?;
        let held = self.make(ctor, fields.as_slice())?;
        helds.push(held)
    }
}

/// Holds a number or a truth value, or adds what is left to do for a tree.
fn load_next<'v>(
    pending: &mut Items<Pending<'v>>,
    helds: &mut Items<Held>,
    value: &'v Value,
) -> Result<(), NoMemory>
    ensures { OnOk result (IsLoaded (steps_of pending.old) (steps_of pending.new) helds.old helds.new
        (out-Value value.now)) }
{
    match value {
        Value::Int(n) => helds.push(Held::Int(*n)),
        Value::Bool(b) => helds.push(Held::Bool(*b)),
        Value::Tree(ctor, fields) => push_fields(pending, *ctor, fields.as_slice()),
    }
}

/// Adds what is left to do for a tree: to load its fields, the last one on top, and to make it.
fn push_fields<'v>(
    pending: &mut Items<Pending<'v>>,
    ctor: CtorId,
    fields: &'v [Value],
) -> Result<(), NoMemory>
    ensures { OnOk result (steps_of pending.new ≡ steps_of pending.old ++ tree_steps ctor fields.now) }
{
    pending.push(Pending::Make(ctor, fields.len()))?;
    for field in fields {
        pending.push(Pending::Load(field))?;
    }
    Ok(())
}
