//! What operators and patterns look at.

ghost use Rattle.std.specs.Prelude.{◌≡◌, IfOk};
ghost use Rattle.pp_eval.specs.Equality.{equal};
ghost use Rattle.pp_eval.specs.Meaning as meaning;
ghost use Rattle.pp_eval.specs.Operators.{operated};
ghost use Rattle.pp_eval.specs.Part.{Tells};
ghost use Rattle.pp_store.specs.Values.{IsHeld, value_of};
ghost use Rattle.pp_stack.specs.Heads.{IsHeadOf, IsLook, Shows};

use crate::NoMemory;
use pp_eval::{Halt, Stop};
use pp_list::{Items, at};
use pp_prog::{BinaryOp, CheckId, Value};
use pp_store::{Held, Parts, Store};
use std::alloc::Global;

/// A value by its outermost layer.
#[derive(Clone, Copy)]
pub(crate) enum Look<'s> {
    Int(i32),
    Bool(bool),
    Tree(Parts<'s>),
}

/// The outermost layer of the value.
pub(crate) fn look_at(store: &Store, held: Held) -> Look<'_>
    requires { IsHeld store.now held }
    ensures { IsLook store.now result (value_of store.now held) }
{
    match held {
        Held::Int(n) => Look::Int(n),
        Held::Bool(b) => Look::Bool(b),
        Held::Tree(number) => Look::Tree(store.parts(number)),
    }
}

/// Whether the two stand for the same value.
pub(crate) fn are_equal(alloc: Global, store: &Store, x: Held, y: Held) -> Result<bool, NoMemory>
    requires left { IsHeld store.now x }
    requires right { IsHeld store.now y }
    ensures { IfOk result (λ b. b ≡ equal (value_of store.now x) (value_of store.now y)) }
{
    store.same(alloc, x, y)
}

/// The number or truth value itself, and of a tree its constructor without fields: operators tell no tree from another.
pub(crate) fn head(alloc: Global, store: &Store, held: Held) -> Value
    requires { IsHeld store.now held }
    ensures { IsHeadOf result (value_of store.now held) }
{
    match held {
        Held::Int(n) => Value::Int(n),
        Held::Bool(b) => Value::Bool(b),
        Held::Tree(number) => Value::Tree(store.parts(number).ctor, Items::new(alloc)),
    }
}

/// An operator whose two operands were evaluated.
pub(crate) fn combine(
    alloc: Global,
    store: &Store,
    op: BinaryOp,
    check: Option<CheckId>,
    x: Held,
    y: Held,
) -> Result<Value, Halt>
    requires left { IsHeld store.now x }
    requires right { IsHeld store.now y }
    ensures { Tells result (operated op check (value_of store.now x) (value_of store.now y)) }
{
    match op {
        BinaryOp::Equal => Ok(Value::Bool(are_equal(alloc, store, x, y)?)),
        BinaryOp::Differ => Ok(Value::Bool(!are_equal(alloc, store, x, y)?)),
        _ => match pp_eval::operate(op, check, &head(alloc, store, x), &head(alloc, store, y)) {
            Ok(value) => Ok(value),
            Err(stop) => Err(Halt::Stopped(stop)),
        },
    }
}

/// The field at this place.
pub(crate) fn field_of(store: &Store, held: Held, k: u32) -> Result<Held, Halt>
    requires { IsHeld store.now held }
    ensures { Shows store.now result (meaning.field (value_of store.now held) k) }
{
    match held {
        Held::Int(_) => Err(Halt::Stopped(Stop::Stuck)),
        Held::Bool(_) => Err(Halt::Stopped(Stop::Stuck)),
        Held::Tree(number) => match at(store.parts(number).fields, k as usize) {
            Some(field) => Ok(*field),
            None => Err(Halt::Stopped(Stop::Stuck)),
        },
    }
}
