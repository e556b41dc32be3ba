//! The values that a machine works on.

ghost use Rattle.std.specs.Prelude.{◌≡◌, ◌+◌, ◌++◌, IfOk, OnOk, Ok, length, take, drop};
ghost use Rattle.pp_store.specs.Values.{IsHeld, value_of};
ghost use Rattle.pp_stack.specs.Moves.{AllHeld, Binds, Moves, Pops, Tests};
ghost use Rattle.pp_stack.specs.State.{applied, bound_one, compared, constructed, forgotten, left_for, looked_up};
ghost use Rattle.pp_stack.specs.State.{operated_on, passed, popped, pushed, selected, state_of, tested, with_measure};
ghost use Rattle.pp_eval.specs.Part.{Tells};
ghost use Rattle.pp_prog.specs.Fits.{fit};

use crate::head::{combine, field_of, head};
use crate::measure::is_below;
use crate::todo::Here;
use crate::{NoMemory, fit};
use pp_eval::{Halt, Stop};
use pp_list::{Items, at};
use pp_prog::{BinaryOp, CheckId, Ctor, CtorId, Pattern, UnaryOp, Value};
use pp_store::{Held, Store};
use std::alloc::{AllocError, Global};

/// The values that are worked on: results that are still to be used, the values in scope, each frame's behind those of
/// its caller, the measure values of the open frames, the frame that is evaluated, and what holds trees.
#[derive(Drop)]
pub(crate) struct Stacks {
    pub(crate) temps: Items<Held>,
    pub(crate) env: Items<Held>,
    pub(crate) measures: Items<Held>,
    pub(crate) here: Here,
    pub(crate) store: Store,
}

impl Stacks {
    /// Puts a value on top.
    pub(crate) fn push(&mut self, held: Held) -> Result<(), Halt>
        requires all { AllHeld self.old }
        requires one { IsHeld self.old.store held }
        ensures moved { Moves result self.new (Ok (pushed (state_of self.old) (value_of self.old.store held))) }
        ensures store { self.new.store ≡ self.old.store }
    {
        self.temps.push(held)?;
        Ok(())
    }

    /// Puts a value on top that isn't held yet.
    pub(crate) fn push_value(&mut self, alloc: Global, value: &Value) -> Result<(), Halt>
        requires { AllHeld self.old }
        ensures { Moves result self.new (Ok (pushed (state_of self.old) value.now)) }
    {
        let held = self.store.load(alloc, value)?;
        self.push(held)
    }

    /// Takes the value from the top.
    pub(crate) fn pop(&mut self) -> Result<Held, Halt>
        requires { AllHeld self.old }
        ensures { Pops result self.new (popped (state_of self.old)) }
    {
        match self.temps.pop() {
            Some(held) => Ok(held),
            None => Err(Halt::Stopped(Stop::Stuck)),
        }
    }

    /// Takes the truth value from the top.
    pub(crate) fn test(&mut self, alloc: Global) -> Result<bool, Halt>
        requires { AllHeld self.old }
        ensures { Tests result self.new (tested (state_of self.old)) }
    {
        let held = self.pop()?;
        match head(alloc, &self.store, held) {
            Value::Bool(b) => Ok(b),
            _ => Err(Halt::Stopped(Stop::Stuck)),
        }
    }

    /// Puts the value of a variable on top.
    pub(crate) fn variable(&mut self, i: u32) -> Result<(), Halt>
        requires { AllHeld self.old }
        ensures { Moves result self.new (looked_up i (state_of self.old)) }
    {
        let first = self.env.len().saturating_sub(self.here.bound);
        match at(behind(self.env.as_slice(), first), i as usize) {
            Some(held) => {
                let held = *held;
                self.push(held)
            }
            None => Err(Halt::Stopped(Stop::Stuck)),
        }
    }

    /// Puts the result of an operator with one operand on top.
    pub(crate) fn apply(&mut self, alloc: Global, op: UnaryOp) -> Result<(), Halt>
        requires { AllHeld self.old }
        ensures { Moves result self.new (applied op (state_of self.old)) }
    {
        let held = self.pop()?;
        match pp_eval::unary(op, &head(alloc, &self.store, held)) {
            Ok(value) => self.push_value(alloc, &value),
            Err(stop) => Err(Halt::Stopped(stop)),
        }
    }

    /// Puts the result of an operator on top, whose two operands are there.
    pub(crate) fn operate(
        &mut self,
        alloc: Global,
        op: BinaryOp,
        check: Option<CheckId>,
    ) -> Result<(), Halt>
        requires { AllHeld self.old }
        ensures { Moves result self.new (operated_on op check (state_of self.old)) }
    {
        let (Some(y), Some(x)) = (self.temps.pop(), self.temps.pop()) else {
            return Err(Halt::Stopped(Stop::Stuck));
        };
        match combine(alloc, &self.store, op, check, x, y) {
            Ok(value) => self.push_value(alloc, &value),
            Err(halt) => Err(halt),
        }
    }

    /// Makes a tree of the values from this place on.
    pub(crate) fn construct(&mut self, ctor: CtorId, first: usize) -> Result<(), Halt>
        requires { AllHeld self.old }
        ensures { Moves result self.new (Ok (constructed ctor first (state_of self.old))) }
    {
        let held = self.store.make(ctor, behind(self.temps.as_slice(), first))?;
        truncate(&mut self.temps, first);
        self.push(held)
    }

    /// Puts the field of the value on top.
    pub(crate) fn field(&mut self, k: u32) -> Result<(), Halt>
        requires { AllHeld self.old }
        ensures { Moves result self.new (selected k (state_of self.old)) }
    {
        let held = self.pop()?;
        let field = field_of(&self.store, held, k)?;
        self.push(field)
    }

    /// Binds the value on top.
    pub(crate) fn bind_one(&mut self) -> Result<(), Halt>
        requires { AllHeld self.old }
        ensures { Moves result self.new (bound_one (state_of self.old)) }
    {
        let held = self.pop()?;
        self.here.bound = more(self.here.bound, 1)?;
        self.env.push(held)?;
        Ok(())
    }

    /// Binds what the pattern binds at a value, and says how many, or binds nothing where the value doesn't fit.
    pub(crate) fn bind(&mut self, pattern: &Pattern, held: Held) -> Result<Option<usize>, NoMemory>
        requires all { AllHeld self.old }
        requires one { IsHeld self.old.store held }
        ensures bound { IfOk result (λ count. Binds count (state_of self.old) self.new
            (fit pattern.now (value_of self.old.store held))) }
        ensures store { self.new.store ≡ self.old.store }
    {
        let depth = self.env.len();
        if fit::bind(&self.store, &mut self.env, pattern, held)? {
            let count = self.env.len().saturating_sub(depth);
            self.here.bound = more(self.here.bound, count)?;
            Ok(Some(count))
        } else {
            truncate(&mut self.env, depth);
            Ok(None)
        }
    }

    /// So many values go out of scope.
    pub(crate) fn forget(&mut self, count: usize)
        requires { AllHeld self.old }
        ensures held { AllHeld self.new }
        ensures state { state_of self.new ≡ forgotten count (state_of self.old) }
    {
        let kept = self.env.len().saturating_sub(count);
        truncate(&mut self.env, kept);
        self.here.bound = self.here.bound.saturating_sub(count);
    }

    /// Moves the values from this place on to the end of the environment, and says how many they are.
    pub(crate) fn pass(&mut self, first: usize) -> Result<usize, NoMemory>
        requires { AllHeld self.old }
        ensures held { IfOk result (λ count. AllHeld self.new) }
        ensures state { IfOk result (λ count. state_of self.new ≡ passed first (state_of self.old)) }
        ensures count { IfOk result (λ count. count ≡ length (drop first (state_of self.old).temps)) }
    {
        let values = behind(self.temps.as_slice(), first);
        let count = values.len();
        push_all(&mut self.env, values)?;
        truncate(&mut self.temps, first);
        Ok(count)
    }

    /// Whether the values from this place on are below the measure values of the frame, where the site has a measure
    /// check and the frame measure values; else the check fails.
    pub(crate) fn compare(
        &self,
        alloc: Global,
        ctors: &[Ctor],
        check: Option<CheckId>,
        first: usize,
    ) -> Result<(), Halt>
        requires { AllHeld self.now }
        ensures { Tells result (compared ctors.now check first (state_of self.now)) }
    {
        let Some(check) = check else {
            return Ok(());
        };
        let Some(count) = self.here.measured else {
            return Ok(());
        };
        let new = behind(self.temps.as_slice(), first);
        let old = behind(
            self.measures.as_slice(),
            self.measures.len().saturating_sub(count),
        );
        if is_below(alloc, &self.store, ctors, new, old)? {
            Ok(())
        } else {
            Err(Halt::Stopped(Stop::Fails(check)))
        }
    }

    /// Moves the values from this place on to the end of the measure values, and says how many they are.
    pub(crate) fn measure(&mut self, first: usize) -> Result<usize, NoMemory>
        requires { AllHeld self.old }
        ensures held { IfOk result (λ count. AllHeld self.new) }
        ensures state { IfOk result (λ count. state_of self.new ≡ with_measure first (state_of self.old)) }
        ensures count { IfOk result (λ count. count ≡ length (drop first (state_of self.old).temps)) }
    {
        let values = behind(self.temps.as_slice(), first);
        let count = values.len();
        push_all(&mut self.measures, values)?;
        truncate(&mut self.temps, first);
        Ok(count)
    }

    /// Leaves the body of a call for the frame of its caller: the arguments and the measure values go.
    pub(crate) fn leave(&mut self, here: Here)
        requires { AllHeld self.old }
        ensures held { AllHeld self.new }
        ensures state { state_of self.new ≡ left_for here (state_of self.old) }
    {
        let kept = self.env.len().saturating_sub(self.here.bound);
        truncate(&mut self.env, kept);
        if let Some(count) = self.here.measured {
            let kept = self.measures.len().saturating_sub(count);
            truncate(&mut self.measures, kept);
        }
        self.here = here;
    }
}

/// The values from this place on.
pub(crate) fn behind(helds: &[Held], first: usize) -> &[Held]
    ensures { result.now ≡ drop first helds.now }
{
    if first < helds.len() {
        &helds[first..]
    } else {
        &[]
    }
}

/// Keeps the first values alone.
pub(crate) fn truncate(helds: &mut Items<Held>, first: usize)
    ensures { helds.new ≡ take first helds.old }
{
    while helds.len() > first {
        let _ = helds.pop();
    }
}

/// Puts these at the end.
pub(crate) fn push_all(to: &mut Items<Held>, helds: &[Held]) -> Result<(), NoMemory>
    ensures { OnOk result (to.new ≡ to.old ++ helds.now) }
{
    for held in helds {
        to.push(*held)?;
    }
    Ok(())
}

/// So many more. Past 2^64 it is want of memory.
fn more(count: usize, by: usize) -> Result<usize, NoMemory>
    ensures { IfOk result (λ n. n ≡ count + by) }
{
    match count.checked_add(by) {
        Some(n) => Ok(n),
        None => Err(AllocError),
    }
}
