//! The order in which lists of arguments come, which no clause promises.

ghost use Rattle.std.specs.Prelude.{◌<◌, ◌^◌, length};

use crate::candidates::Candidates;
use pp_list::Items;
use pp_prog::{Ctor, CtorId, Ctors, DataId, Sort, Value, Values};
use pp_text::Name;
use std::alloc::Global;
use std::fmt::Write;
use std::test::Fail;

/// The constructors of a list of numbers: `Nil` and `Cons`.
fn list_ctors(alloc: Global) -> Result<Ctors, Fail> {
    let mut ctors = Items::new(alloc);
    ctors.push(Ctor {
        name: Name::of(alloc, "Nil")?,
        of: DataId(0),
        fields: Items::new(alloc),
        object: true,
    })?;
    let mut fields = Items::new(alloc);
    fields.push(Sort::Int)?;
    fields.push(Sort::Tree(DataId(0)))?;
    ctors.push(Ctor {
        name: Name::of(alloc, "Cons")?,
        of: DataId(0),
        fields,
        object: false,
    })?;
    Ok(ctors)
}

/// Adds a value: a number, a truth value, or the number of a constructor with the fields in brackets.
#[cycle(show)]
fn show(text: &mut String, value: &Value) -> Result<(), Fail> {
    match value {
        Value::Int(n) => write!(text, "{n}")?,
        Value::Bool(b) => write!(text, "{b}")?,
        Value::Tree(CtorId(c), fields) => {
            write!(text, "{c}(")?;
            show_all(text, fields.as_slice())?;
            write!(text, ")")?;
        }
    }
    Ok(())
}

/// Adds the values, with a space behind each.
#[cycle(show)]
fn show_all(text: &mut String, values: &[Value]) -> Result<(), Fail> {
    for value in values {
        show(text, value)?;
        write!(text, " ")?;
    }
    Ok(())
}

/// The lists of the first costs, so many, of arguments of these sorts and of at most this height: a line for each cost.
fn lists_of(
    alloc: Global,
    ctors: &[Ctor],
    sorts: &[Sort],
    depth: u32,
    costs: usize,
) -> Result<String, Fail>
    requires { length ctors.now < 2 ^ 32 }
{
    let mut text = String::new(alloc);
    let mut candidates = Candidates::new(alloc, 1, ctors, sorts, depth)?;
    for _ in 0..costs {
        candidates.grow(alloc)?;
        show_lists(&mut text, candidates.last())?;
    }
    Ok(text)
}

/// Adds a line of the lists, with a bar behind each.
fn show_lists(text: &mut String, lists: &[Values]) -> Result<(), Fail> {
    for list in lists {
        show_all(text, list.as_slice())?;
        write!(text, "| ")?;
    }
    write!(text, "\n")?;
    Ok(())
}

#[test]
fn a_function_without_parameters_has_one_list(rt: HostRuntime) -> Result<(), Fail> {
    let text = lists_of(rt.alloc(), &[], &[], 3, 3)?;
    assert_eq!(rt; text.as_str(), "| \n\n\n");
    Ok(())
}

#[test]
fn numbers_come_in_pairs_by_what_they_cost(rt: HostRuntime) -> Result<(), Fail> {
    let text = lists_of(rt.alloc(), &[], &[Sort::Int, Sort::Bool], 3, 4)?;
    assert_eq!(rt;
        text.as_str(),
        "0 false | \n0 true | 1 false | \n1 true | -1 false | \n-1 true | 2 false | \n"
    );
    Ok(())
}

#[test]
fn lists_of_numbers_come_by_what_they_cost(rt: HostRuntime) -> Result<(), Fail> {
    let alloc = rt.alloc();
    let ctors = list_ctors(alloc)?;
    assert_eq!(rt; ctors.len(), 2usize);
    let text = lists_of(alloc, ctors.as_slice(), &[Sort::Tree(DataId(0))], 3, 5)?;
    assert_eq!(rt;
        text.as_str(),
        "\n0() | \n1(0 0() ) | \n1(0 1(0 0() ) ) | 1(1 0() ) | \n1(0 1(1 0() ) ) | 1(1 1(0 0() ) ) | 1(-1 0() ) | \n"
    );
    Ok(())
}
