//! Steps whose operands are renamed.

ghost use Rattle.std.specs.Prelude.{◌≡◌, map, IfOk};
ghost use Rattle.pp_simplify.specs.Names as spec;
ghost use Rattle.pp_simplify.specs.Operands as operands;

use crate::NoMemory;
use pp_list::{Items, at};
use pp_prog::Sort;
use pp_steps::{Numbers, OpenCall, SortList, Step};
use std::alloc::Global;

/// By the number of each step, the earlier step that has its value, where one is known.
pub(crate) type Names = Items<Option<u32>>;

/// The number of the step that stands for the step with this one.
pub(crate) fn named(names: &[Option<u32>], number: u32) -> u32
    ensures { result ≡ spec.named names.now number }
{
    match at(names, number as usize) {
        Some(Some(name)) => *name,
        _ => number,
    }
}

/// The step with its operands renamed. The only error is want of memory.
pub(crate) fn renamed(alloc: Global, names: &[Option<u32>], step: &Step) -> Result<Step, NoMemory>
    ensures { IfOk result (λ t. t ≡ operands.renamed (spec.named names.now) step.now) }
{
    match step {
        Step::Open(sort) => Ok(Step::Open(*sort)),
        Step::Int(n) => Ok(Step::Int(*n)),
        Step::Bool(b) => Ok(Step::Bool(*b)),
        Step::Not(a) => Ok(Step::Not(named(names, *a))),
        Step::Both(a, b) => Ok(Step::Both(named(names, *a), named(names, *b))),
        Step::Choose(c, a, b) => {
            let test = named(names, *c);
            Ok(Step::Choose(test, named(names, *a), named(names, *b)))
        }
        Step::Unary(op, a) => Ok(Step::Unary(*op, named(names, *a))),
        Step::Binary(op, a, b) => Ok(Step::Binary(*op, named(names, *a), named(names, *b))),
        Step::Construct(ctor, fields) => {
            let fields = all_renamed(alloc, names, fields.as_slice())?;
            Ok(Step::Construct(*ctor, fields))
        }
        Step::IsCtor(ctor, count, a) => Ok(Step::IsCtor(*ctor, *count, named(names, *a))),
        Step::CtorField(ctor, place, a) => Ok(Step::CtorField(*ctor, *place, named(names, *a))),
        Step::Field(a, place) => Ok(Step::Field(named(names, *a), *place)),
        Step::IsAlike(a, b) => Ok(Step::IsAlike(named(names, *a), named(names, *b))),
        Step::GoesDown(a, b) => Ok(Step::GoesDown(named(names, *a), named(names, *b))),
        Step::HasAnswer(call) => {
            let call = call_renamed(alloc, names, call)?;
            Ok(Step::HasAnswer(call))
        }
        Step::Answer(call) => {
            let call = call_renamed(alloc, names, call)?;
            Ok(Step::Answer(call))
        }
    }
}

/// The open call with its numbers renamed.
fn call_renamed(alloc: Global, names: &[Option<u32>], call: &OpenCall) -> Result<OpenCall, NoMemory>
    ensures { IfOk result (λ c. c ≡ operands.call_renamed (spec.named names.now) call.now) }
{
    let params = copied(alloc, call.params.as_slice())?;
    let args = all_renamed(alloc, names, call.args.as_slice())?;
    Ok(OpenCall {
        callee: call.callee,
        wait: call.wait,
        reach: named(names, call.reach),
        params,
        result: call.result,
        args,
    })
}

/// The same sorts.
fn copied(alloc: Global, sorts: &[Sort]) -> Result<SortList, NoMemory>
    ensures { IfOk result (λ r. r ≡ sorts.now) }
{
    let mut copies = Items::new(alloc);
    for sort in sorts {
        copies.push(*sort)?;
    }
    Ok(copies)
}

/// The numbers, renamed.
fn all_renamed(alloc: Global, names: &[Option<u32>], numbers: &[u32]) -> Result<Numbers, NoMemory>
    ensures { IfOk result (λ ns. ns ≡ map (spec.named names.now) numbers.now) }
{
    let mut renamed = Items::new(alloc);
    for number in numbers {
        renamed.push(named(names, *number))?;
    }
    Ok(renamed)
}
