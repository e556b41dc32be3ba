//! What was made is looked at, compared, and leaves as it came.

use super::*;
use pp_list::{Items, at};
use pp_prog::{CtorId, Value};
use std::alloc::Global;
use std::test::Fail;

/// A list of the numbers below this one, the greatest first. It is as high as it is long, and one more.
fn list(alloc: Global, count: i32) -> Result<Value, NoMemory> {
    let mut list = Value::Tree(CtorId(0), Items::new(alloc));
    for n in 0..count {
        let mut fields = Items::new(alloc);
        fields.push(Value::Int(n))?;
        fields.push(list)?;
        list = Value::Tree(CtorId(1), fields);
    }
    Ok(list)
}

#[test]
fn a_tree_has_the_parts_of_which_it_was_made(rt: HostRuntime) -> Result<(), Fail> {
    let alloc = rt.alloc();
    let mut store = Store::new(alloc);
    let nil = store.make(CtorId(0), &[])?;
    let cons = store.make(CtorId(1), &[Held::Int(7), nil])?;
    assert!(rt; matches!(nil, Held::Tree(0)));
    let Held::Tree(number) = cons else {
        assert!(rt; false);
        return Ok(());
    };
    let parts = store.parts(number);
    assert_eq!(rt; parts.ctor.0, 1u32);
    assert_eq!(rt; parts.fields.len(), 2usize);
    assert!(rt; matches!(at(parts.fields, 0), Some(Held::Int(7))));
    assert!(rt; matches!(at(parts.fields, 1), Some(Held::Tree(0))));
    Ok(())
}

#[test]
fn values_are_compared_by_what_they_stand_for(rt: HostRuntime) -> Result<(), Fail> {
    let alloc = rt.alloc();
    let mut store = Store::new(alloc);
    let nil = store.make(CtorId(0), &[])?;
    let one = store.make(CtorId(1), &[Held::Int(1), nil])?;
    let also_nil = store.make(CtorId(0), &[])?;
    let also_one = store.make(CtorId(1), &[Held::Int(1), also_nil])?;
    assert!(rt; store.same(alloc, one, also_one)?);
    assert!(rt; !store.same(alloc, also_one, also_nil)?);
    assert!(rt; !store.same(alloc, Held::Int(0), also_nil)?);
    assert!(rt; !store.same(alloc, Held::Int(1), Held::Bool(true))?);
    Ok(())
}

#[test]
fn what_is_below_a_tree_may_stand_elsewhere(rt: HostRuntime) -> Result<(), Fail> {
    let alloc = rt.alloc();
    let mut store = Store::new(alloc);
    let nil = store.make(CtorId(0), &[])?;
    let one = store.make(CtorId(1), &[Held::Int(1), nil])?;
    let two = store.make(CtorId(1), &[Held::Int(2), one])?;
    assert!(rt; store.is_below(alloc, one, two)?);
    assert!(rt; store.is_below(alloc, nil, two)?);
    assert!(rt; store.is_below(alloc, Held::Int(1), two)?);
    assert!(rt; !store.is_below(alloc, two, two)?);
    assert!(rt; !store.is_below(alloc, Held::Int(3), two)?);
    assert!(rt; !store.is_below(alloc, nil, Held::Int(1))?);
    let also_one = store.make(CtorId(1), &[Held::Int(1), nil])?;
    assert!(rt; store.is_below(alloc, also_one, two)?);
    Ok(())
}

#[test]
fn a_high_value_leaves_as_it_came(rt: HostRuntime) -> Result<(), Fail> {
    let alloc = rt.alloc();
    let list = list(alloc, 1000)?;
    let mut store = Store::new(alloc);
    let held = store.load(alloc, &list)?;
    let also = store.load(alloc, &list)?;
    assert!(rt; store.same(alloc, held, also)?);
    assert!(rt; !store.is_below(alloc, held, also)?);
    assert!(rt; store.is_below(alloc, Held::Int(0), also)?);
    let value = store.unload(alloc, held)?;
    assert!(rt; value.same(&list));
    release(value);
    release(list);
    Ok(())
}
