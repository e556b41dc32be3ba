//! Values that leave a store.

ghost use Rattle.std.specs.Prelude.{◌≡◌, ◌∷◌, IfOk, OnOk, reverse, take, drop};
ghost use Rattle.pp_prog.specs.declared.value.Value.TheVariants.{Tree};
ghost use Rattle.pp_store.specs.Values.{IsHeld, value_of};
ghost use Rattle.pp_store.specs.Work.{IsOpened, IsUnloaded};

use crate::NoMemory;
use crate::held::Held;
use crate::store::Store;
use pp_list::Items;
use pp_prog::{CtorId, Value, Values};
use std::alloc::Global;

/// What is left to do: make the value that is held, or a tree of so many values that were made last.
#[derive(Clone, Copy)]
pub(crate) enum Task {
    Unload(Held),
    Build(CtorId, usize),
}

impl Store {
    /// The value that is held, as a tree of its own. A tree that is held in several places appears in each of them, so
    /// it may be exponentially larger than what holds it. It doesn't recurse on the height. The only error is want of
    /// memory.
    pub fn unload(&self, alloc: Global, held: Held) -> Result<Value, NoMemory>
        requires { IsHeld self.now held }
        ensures { IfOk result (λ v. v ≡ value_of self.now held) }
    {
        let mut tasks = Items::new(alloc);
        let mut values = Items::new(alloc);
        tasks.push(Task::Unload(held))?;
        while let Some(task) = tasks.pop() {
            match task {
                Task::Unload(held) => self.unload_next(&mut tasks, &mut values, held)?,
                Task::Build(ctor, count) => build(alloc, &mut values, ctor, count)?,
            }
        }
        match values.pop() {
            Some(value) => Ok(value),
            None => unreachable!(),
        }
    }

    /// Makes a number or a truth value, or adds the tasks of a tree.
    fn unload_next(
        &self,
        tasks: &mut Items<Task>,
        values: &mut Values,
        held: Held,
    ) -> Result<(), NoMemory>
        requires { IsHeld self.now held }
        ensures { OnOk result (IsUnloaded self.now tasks.old tasks.new values.old values.new held) }
    {
        match held {
            Held::Int(n) => values.push(Value::Int(n)),
            Held::Bool(b) => values.push(Value::Bool(b)),
            Held::Tree(number) => self.open(tasks, number),
        }
    }

    /// Adds the tasks of a tree: to unload its fields, the last one on top, and to build it.
    fn open(&self, tasks: &mut Items<Task>, number: u32) -> Result<(), NoMemory>
        requires { IsHeld self.now (Held.Tree number) }
        ensures { OnOk result (IsOpened self.now number tasks.old tasks.new) }
    {
        let parts = self.parts(number);
        tasks.push(Task::Build(parts.ctor, parts.fields.len()))?;
        for field in parts.fields {
            tasks.push(Task::Unload(*field))?;
        }
        Ok(())
    }
}

/// Makes a tree of so many values that were made last.
fn build(alloc: Global, values: &mut Values, ctor: CtorId, count: usize) -> Result<(), NoMemory>
    ensures { OnOk result (reverse values.new ≡ Tree ctor (take count (reverse values.old))
        ∷ drop count (reverse values.old)) }
{
    let fields = popped(alloc, values, count)?;
    values.push(Value::Tree(ctor, fields))
}

/// Takes so many values from the end, or all that there are: the last one first.
pub(crate) fn popped<T: Drop>(
    alloc: Global,
    values: &mut Items<T>,
    count: usize,
) -> Result<Items<T>, NoMemory>
    ensures fields { IfOk result (λ vs. vs ≡ take count (reverse values.old)) }
    ensures rest { OnOk result (reverse values.new ≡ drop count (reverse values.old)) }
{
    let mut fields = Items::new(alloc);
    for _ in 0..count {
        match values.pop() {
            Some(value) => fields.push(value)?,
            None => return Ok(fields),
        }
    }
    Ok(fields)
}
