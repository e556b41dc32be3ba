//! The call graph of the functions of a program, and its groups.

ghost use Rattle.std.specs.Prelude.{◌≡◌, ◌<◌, ◌^◌, ◌++◌, IfOk, length};
ghost use Rattle.pp_call_graph.specs.Groups.{AreGroupsOf};
ghost use Rattle.pp_call_graph.specs.TypedCalls.{calls_at, row_at};

use crate::NoMemory;
use crate::calls::calls_of;
use pp_instances::Instance;
use pp_list::{Items, at};
use pp_numbers::Numbers;
use pp_typed::Typed;
use std::alloc::Global;

/// Adds the row of an instance.
fn add_row(
    alloc: Global,
    typed: &Typed,
    numbers: &Numbers,
    i: &Instance,
    calls: &mut Items<Items<u32>>,
) -> Result<(), NoMemory>
    requires { length numbers.now.functions < 2 ^ 31 }
    ensures { IfOk result (λ _. calls.new ≡ calls.old ++ row_at typed.now numbers.now.functions i.now) }
{
    match at(typed.defs.as_slice(), i.number as usize) {
        None => Ok(()),
        Some(d) => calls.push(calls_of(alloc, numbers, d, i.args.as_slice())?),
    }
}

/// The rows of instances.
fn calls_at(
    alloc: Global,
    typed: &Typed,
    numbers: &Numbers,
    functions: &[Instance],
) -> Result<Items<Items<u32>>, NoMemory>
    requires { length numbers.now.functions < 2 ^ 31 }
    ensures { IfOk result (λ calls. calls ≡ calls_at typed.now numbers.now.functions functions.now) }
{
    let mut calls = Items::new(alloc);
    for i in functions {
        add_row(alloc, typed, numbers, i, &mut calls)?;
    }
    Ok(calls)
}

/// The number of the group of each function of the program whose functions these instances are: the least function of
/// the group. The only error is want of memory.
pub fn groups_at(
    alloc: Global,
    typed: &Typed,
    numbers: &Numbers,
    functions: &[Instance],
) -> Result<Items<u32>, NoMemory>
    requires few_numbers { length numbers.now.functions < 2 ^ 31 }
    requires few { length functions.now < 2 ^ 31 }
    ensures { IfOk result (λ groups. AreGroupsOf typed.now numbers.now.functions functions.now groups) }
{
    let calls = calls_at(alloc, typed, numbers, functions)?;
    let groups = pp_graph::groups_of(alloc, calls.as_slice())?;
    Ok(groups)
}
